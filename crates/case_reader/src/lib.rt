// The reader of case files: bytes in, the case or the first refusal out.
#![tactic(auto)]

mod row_fields;

ghost use Rattle.std.specs.Prelude.{drop};
ghost use Rattle.casefile.specs.Decode.{decode};
ghost use Rattle.casefile.specs.Layout.{rows_end};
ghost use Rattle.case_reader.specs.Read.{HeadFound, TrialFits, TrialFound, TailFound, lists_in, CaseFound, CaseReadInto};

use casefile::{CaseFigures, CaseHead, NO_FIGURES};
use fields::HEADER_SIZE;
use outcome::Refusal;

fn read_head(s: &[u8]) -> Result<CaseHead, Refusal>
    ensures { HeadFound s.now result }
{
    fields::check_field(s, 0, casefile::HEAD_TAG, casefile::HEAD_LENGTH)?;
    let head = CaseHead {
        n: s[casefile::N_AT] as usize,
        exponent: s[casefile::EXPONENT_AT] as usize,
        rounds: s[casefile::ROUNDS_AT] as usize,
    };
    outcome::check(head.is_fine(), Refusal::OutsideLimits)?;
    Ok(head)
}

// The trial's field behind the rows, where the case brings one, its figures over the front of y.
fn read_trial(s: &[u8], head: CaseHead, y: &mut [i32]) -> Result<(), Refusal>
    requires { TrialFits head.n y.old }
    ensures { TrialFound head.rounds head.n (drop (rows_end head.n) s.now) y.old result y.new }
{
    if head.rounds != 0 {
        return Ok(());
    }
    let places = head.tail_places();
    fields::check_field(s, places.trial, casefile::TRIAL_TAG, places.trial_len)?;
    let fine = figures::read(
        s,
        places.trial + HEADER_SIZE,
        limits::TRIAL_LIMIT,
        &mut y[..head.n],
    );
    outcome::check(fine, Refusal::OutsideLimits)
}

// The first refusal from the end of the rows on, or none; the trial's figures, where the case brings one, over the front of y.
fn read_tail(s: &[u8], head: CaseHead, y: &mut [i32]) -> Result<(), Refusal>
    requires { TrialFits head.n y.old }
    ensures { TailFound head.rounds head.n (drop (rows_end head.n) s.now) y.old result y.new }
{
    read_trial(s, head, y)?;
    let places = head.tail_places();
    fields::check_field(s, places.end, fields::END_TAG, fields::END_LENGTH)?;
    outcome::check(
        s.len() - places.end == fields::END_SIZE,
        Refusal::TrailingBytes,
    )
}

// All fields: the first refusal, or the head, with the figures over the fronts of the five lists.
// After a refusal what the lists hold is left open: `read_case` then clears them.
fn read_fields(s: &[u8], figures: &mut CaseFigures) -> Result<CaseHead, Refusal>
    ensures { CaseFound s.now (lists_in figures.old) result (lists_in figures.new) }
{
    let head = read_head(s)?;
    row_fields::read_rows(s, head.n, figures)?;
    read_tail(s, head, &mut figures.trial)?;
    Ok(head)
}

// Reads a case: its head is returned, and its other figures stand over the fronts of the five lists, whose places beyond them are as they were. A refusal is
// the first in document 01's order, and the lists are then all zeros.
pub fn read_case(s: &[u8], figures: &mut CaseFigures) -> Result<CaseHead, Refusal>
    ensures { CaseReadInto (decode s.now) (lists_in figures.old) result (lists_in figures.new) }
{
    let read = read_fields(s, figures);
    if read.is_err() {
        *figures = NO_FIGURES;
    }
    read
}
