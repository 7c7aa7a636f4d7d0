// The writer of case files.
#![tactic(auto)]

mod row_fields;

ghost use Rattle.std.specs.Prelude.{◌≡◌};
ghost use Rattle.buffer.specs.Buffer.{onto, Wrote};
ghost use Rattle.outcome.specs.CallResult.{call_result};
ghost use Rattle.outcome.specs.Outcome.{status_number};
ghost use Rattle.casefile.specs.Case.{case_status};
ghost use Rattle.casefile.specs.Layout.{encode, trial_bytes};
ghost use Rattle.casefile.specs.Write.{write};
ghost use Rattle.case_writer.specs.Given.{given};
ghost use Rattle.case_writer.specs.Room.{CaseRoom, TrialRoom};

use casefile::{CaseHead, CaseLists};
use fields::HEADER_SIZE;
use outcome::Refusal;

// The first refusal of a case that is to be written, or none.
fn check_case(case: CaseLists<'_>) -> Result<(), Refusal>
    ensures { status_number result ≡ status_number (case_status (given case.entry)) }
{
    outcome::check(case.head.is_fine(), Refusal::OutsideLimits)?;
    let n = case.head.n;
    let tail = case.head.tail_places();
    let counted = casefile::coefficients_counted(n, case.coefficients)
        & ((case.tolerances.len() == n * n)
            & ((case.right_sides.len() == n)
                & ((case.right_tolerances.len() == n) & (case.trial.len() == tail.trial_count))));
    outcome::check(counted, Refusal::WrongLength)?;
    let rows = casefile::coefficients_fine(case.coefficients)
        & (figures::all_within(case.tolerances, limits::TOLERANCE_LIMIT)
            & (figures::all_within(case.right_sides, limits::RIGHT_SIDE_LIMIT)
                & figures::all_within(case.right_tolerances, limits::RIGHT_TOLERANCE_LIMIT)));
    let trial = figures::all_within(case.trial, limits::TRIAL_LIMIT);
    outcome::check(rows & trial, Refusal::OutsideLimits)
}

// The trial's field, where the case brings a trial, over the front of out.
fn write_trial(head: CaseHead, trial: &[i32], out: &mut [u8])
    requires { TrialRoom out.old head.rounds head.n trial.now }
    ensures { out.new ≡ onto (trial_bytes head.rounds trial.now) out.old }
{
    if head.rounds == 0 {
        let tail = head.tail_places();
        fields::write_header(casefile::TRIAL_TAG, tail.trial_len as u16, out);
        figures::write(trial, &mut out[HEADER_SIZE..]);
    }
}

// The fields of a case that nothing refuses, over the front of out, and their length.
fn write_fields(case: CaseLists<'_>, out: &mut [u8]) -> usize
    requires { CaseRoom out.old (given case) }
    ensures { Wrote (encode (given case.entry)) 0 out.old result out.new }
{
    let head = case.head;
    fields::write_header(casefile::HEAD_TAG, casefile::HEAD_LENGTH as u16, out);
    out[casefile::N_AT] = head.n as u8;
    out[casefile::EXPONENT_AT] = head.exponent as u8;
    out[casefile::ROUNDS_AT] = head.rounds as u8;
    row_fields::write_rows(case, &mut out[casefile::ROWS_AT..]);
    let tail = head.tail_places();
    let trial = tail.trial;
    let end = tail.end;
    write_trial(head, case.trial, &mut out[trial..]);
    fields::write_end(&mut out[end..]);
    end + fields::END_SIZE
}

// Writes a case over the front of out and returns its length; bytes beyond it stay. It refuses, and changes no byte, with 1 a buffer shorter than
// the longest case, then with 6 an n, e or K outside its limits, then with 4 a list whose count is not the one due, then with 6 any other figure outside its limits.
pub fn write_case(case: CaseLists<'_>, out: &mut [u8]) -> Result<usize, Refusal>
    ensures { call_result result out.new ≡ write (given case.entry) out.old }
{
    outcome::check(casefile::LONGEST_CASE <= out.len(), Refusal::BufferTooShort)?;
    check_case(case)?;
    Ok(write_fields(case, out))
}
