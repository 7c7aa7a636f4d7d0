// The printed verdict: the lines of a judged condition, or of a refusal, as bytes in a buffer.
#![tactic(auto)]

ghost use Rattle.std.specs.Prelude.{◌+◌, ◌*◌, ◌≤◌, ◌<◌, pos, length, get_or, cond};
ghost use Rattle.limits.specs.Limits.{most_tanks, most_exponent};
ghost use Rattle.buffer.specs.Buffer.{Room, Wrote};
ghost use Rattle.decimal.specs.Writing.{HasRoom, Writes};
ghost use Rattle.judge.specs.Judgement.{judgement_from};
ghost use Rattle.report.specs.Text.{report, labelled, verdict_line, answer_line, row_line, factor_line, answer_lines, row_lines, verdict_room, answer_room, room_of_row, factor_room, text, refusal_text, TextFits};
ghost use Rattle.report.specs.Text.{WroteWithin};

use decimal::TextWriter;
use judge::{Conclusion, MeasuredTrial};
use limits::MOST_TANKS;

// A buffer of this many bytes is enough for every report and every refusal.
pub const TEXT_ROOM: usize = 800;

// A word and a whole number behind it.
fn write_labelled(word: &[u8], x: u64, to: &mut TextWriter<'_>)
    requires { HasRoom (labelled word.now x) to.old }
    ensures { Writes (labelled word.now x) to.old to.new }
{
    to.bytes(word);
    to.unsigned(x);
}

// One of two words, and a whole number behind it.
fn write_either(which: bool, yes: &[u8], no: &[u8], x: u64, to: &mut TextWriter<'_>)
    requires { HasRoom (labelled (cond which yes.now no.now) x) to.old }
    ensures { Writes (labelled (cond which yes.now no.now) x) to.old to.new }
{
    if which {
        write_labelled(yes, x, to);
    } else {
        write_labelled(no, x, to);
    }
}

// The verdict, the first unmet row or 0, and the rounds used.
fn write_verdict_line(met: bool, row: u64, rounds: u64, to: &mut TextWriter<'_>)
    requires { to.old.at + verdict_room ≤ length to.old.out.now }
    ensures { WroteWithin verdict_room (verdict_line met row rounds) to.old to.new }
{
    write_either(met, b"met row ", b"unmet row ", row, to);
    write_labelled(b" rounds ", rounds, to);
    to.bytes(b"\n");
}

// A tank's answer.
fn write_answer_line(e: usize, tank: u64, figure: i32, to: &mut TextWriter<'_>)
    requires { (e ≤ most_exponent) × ((tank < 10) × (to.old.at + answer_room ≤ length to.old.out.now)) }
    ensures { WroteWithin answer_room (answer_line e tank figure) to.old to.new }
{
    write_labelled(b"answer ", tank, to);
    to.bytes(b" ");
    to.fixed_point(figure as i64, e);
    to.bytes(b"\n");
}

// A row's residual and reach.
fn write_row_line(row: u64, residual: i64, reach: u64, to: &mut TextWriter<'_>)
    requires { (row < 10) × (to.old.at + room_of_row ≤ length to.old.out.now) }
    ensures { WroteWithin room_of_row (row_line row residual reach) to.old to.new }
{
    write_labelled(b"row ", row, to);
    to.bytes(b" residual ");
    to.signed(residual);
    write_labelled(b" reach ", reach, to);
    to.bytes(b"\n");
}

// The row that decides, and whether it has a factor.
fn write_factor_line(none: bool, row: u64, to: &mut TextWriter<'_>)
    requires { to.old.at + factor_room ≤ length to.old.out.now }
    ensures { WroteWithin factor_room (factor_line none row) to.old to.new }
{
    write_either(none, b"factor none row ", b"factor row ", row, to);
    to.bytes(b"\n");
}

// Every row's residual and reach. n is a plain number here: the figures that it counts stand in arrays with room for any.
fn write_rows(n: usize, trial: &MeasuredTrial, to: &mut TextWriter<'_>)
    requires { (n ≤ most_tanks) × (to.old.at + n * room_of_row ≤ length to.old.out.now) }
    ensures { WroteWithin (n * room_of_row) (row_lines n (λ i. get_or trial.now.residuals i (pos 0)) (λ i. get_or trial.now.reaches i 0)) to.old to.new }
{
    for i in 0..n {
        write_row_line((i + 1) as u64, trial.residuals[i], trial.reaches[i], to);
    }
}

// Every tank's answer.
fn write_answers(n: usize, e: usize, answer: &[i32; MOST_TANKS], to: &mut TextWriter<'_>)
    requires { (n ≤ most_tanks) × ((e ≤ most_exponent) × (to.old.at + n * answer_room ≤ length to.old.out.now)) }
    ensures { WroteWithin (n * answer_room) (answer_lines n e (λ j. get_or answer.now j (pos 0))) to.old to.new }
{
    for j in 0..n {
        write_answer_line(e, (j + 1) as u64, answer[j], to);
    }
}

// Prints one judged condition from the place `at` on: its verdict and rounds used, every tank's answer, every row, the factor. The rest of out is as it
// was, and the place behind the text is returned. Place and buffer stand apart here alone: callers are told what their own
// buffer holds. Rounds and conclusion stand apart too, as in a record.
pub fn render(
    n: usize,
    e: usize,
    rounds: usize,
    conclusion: Conclusion,
    trial: &MeasuredTrial,
    at: usize,
    out: &mut [u8],
) -> usize
    requires { TextFits n e at (length out.old) }
    ensures { Wrote (text (report n e rounds trial.now.figures (judgement_from conclusion trial.now.residuals trial.now.reaches))) at out.old result out.new }
{
    let mut to = TextWriter { out, at };
    write_verdict_line(
        conclusion.met,
        conclusion.unmet as u64,
        rounds as u64,
        &mut to,
    );
    write_answers(n, e, &trial.figures, &mut to);
    write_rows(n, trial, &mut to);
    write_factor_line(conclusion.none, conclusion.decides as u64, &mut to);
    to.at
}

// Prints a refusal at the front of out; the rest of out is as it was, and the text's length is returned.
pub fn render_refusal(number: u8, out: &mut [u8]) -> usize
    requires { Room (refusal_text number) 0 out.old }
    ensures { Wrote (refusal_text number) 0 out.old result out.new }
{
    let mut to = TextWriter { out, at: 0 };
    write_labelled(b"refused ", number as u64, &mut to);
    to.bytes(b"\n");
    to.at
}
