// What the program `verdict` prints, as bytes in a buffer.
#![tactic(auto)]

ghost use Rattle.std.specs.Prelude.{◌≡◌};
ghost use Rattle.outcome.specs.CallResult.{call_result};
ghost use Rattle.verdict_text.specs.Verdict.{text_call};

use judge::ZERO_TRIAL;
use outcome::Refusal;

// The printed verdict of any bytes as a case, over the front of out; what lies beyond it stays. It returns the text's length, or refuses with 1
// an out shorter than report::TEXT_ROOM, which is left as it was. A refused case has a text too, so there is no other refusal.
pub fn verdict_text(input: &[u8], out: &mut [u8]) -> Result<usize, Refusal>
    ensures { call_result result out.new ≡ text_call input.now out.old }
{
    if out.len() < report::TEXT_ROOM {
        return Err(Refusal::BufferTooShort);
    }
    let mut trial = ZERO_TRIAL;
    let answer = ballast::answer_case(input, &mut trial);
    Ok(match answer.kept {
        Ok(kept) => report::render(
            answer.n,
            answer.exponent,
            kept.rounds,
            kept.conclusion,
            &trial,
            0,
            out,
        ),
        Err(unsolved) => report::render_refusal(unsolved.refusal.number(), out),
    })
}
