// The record of a judged answer, as bytes.
#![tactic(auto)]

ghost use Rattle.std.specs.Prelude.{◌+◌, ◌≤◌, ◌<◌, length, ◌≡◌};
ghost use Rattle.limits.specs.Limits.{most_tanks};
ghost use Rattle.buffer.specs.Buffer.{onto, Wrote, run};
ghost use Rattle.judge.specs.Judgement.{judgement_from};
ghost use Rattle.fields.specs.Field.{header_size};
ghost use Rattle.recordfile.specs.Layout.{answer_length, rows_length, factor_length, answer_place, ConditionPlaced, flag as flag_of, pair_at, pair_size, verdict_field, answer_field, rows_field, factor_field};
ghost use Rattle.recordfile.specs.Layout.{condition_fields, record_of, ConditionFits, RecordFits};

use bigendian::BigEndian;
use fields::HEADER_SIZE;
use judge::{Conclusion, MeasuredTrial};

// Document 01, "Layout of case and record".
const VERDICT_TAG: u8 = 0x10;

const ANSWER_TAG: u8 = 0x11;

const ROWS_TAG: u8 = 0x12;

const FACTOR_TAG: u8 = 0x13;

pub const LONGEST_RECORD: usize = 180;

// Where a verdict's and a factor's parts stand in their fields.
const MET_AT: usize = HEADER_SIZE;

const UNMET_AT: usize = MET_AT + 1;

const ROUNDS_AT: usize = UNMET_AT + 1;

const NONE_AT: usize = HEADER_SIZE;

const DECIDES_AT: usize = NONE_AT + 1;

// Where a row's reach stands in its pair, and how long the pair is.
const REACH_AT: usize = i64::SIZE;

const PAIR_SIZE: usize = REACH_AT + u64::SIZE;

// Lengths of values.
const VERDICT_LENGTH: u16 = 3;

const FACTOR_LENGTH: u16 = 2;

// Where the answer's field begins, behind the verdict's.
const ANSWER_AT: usize = HEADER_SIZE + VERDICT_LENGTH as usize;

// The lengths and places of the fields of a condition with n figures and rows. n is a plain number here: the
// figures that it counts stand in arrays with room for any.
#[derive(Clone, Copy, Debug, PartialEq, Eq)]
struct ConditionPlaces {
    answer_len: usize,
    rows: usize,
    rows_len: usize,
    factor: usize,
    len: usize,
}

// How long the values of the answer and the rows are, where the fields of the rows and the factor begin, each behind the one before it, and how long
// all are.
fn condition_places(n: usize) -> ConditionPlaces
    requires { n ≤ most_tanks }
    ensures { ConditionPlaced n result }
{
    let answer_len = i32::SIZE * n;
    let rows = ANSWER_AT + HEADER_SIZE + answer_len;
    let rows_len = PAIR_SIZE * n;
    let factor = rows + HEADER_SIZE + rows_len;
    ConditionPlaces {
        answer_len,
        rows,
        rows_len,
        factor,
        len: factor + HEADER_SIZE + FACTOR_LENGTH as usize,
    }
}

fn flag(b: bool) -> u8
    ensures { result ≡ flag_of b }
{
    u8::from(b)
}

// Field 10, over the front of out.
fn write_verdict(met: bool, unmet: u8, rounds: u8, out: &mut [u8])
    requires { answer_place ≤ length out.old }
    ensures { out.new ≡ onto (verdict_field met unmet rounds) out.old }
{
    let m = flag(met);
    fields::write_header(VERDICT_TAG, VERDICT_LENGTH, out);
    out[MET_AT] = m;
    out[UNMET_AT] = unmet;
    out[ROUNDS_AT] = rounds;
}

// Row i's residual and reach, over the front of that row's bytes. The reach is loaded once the residual is written: both loaded first are slower.
fn write_pair(i: usize, trial: &MeasuredTrial, out: &mut [u8])
    requires { (i < most_tanks) × (pair_size ≤ length out.old) }
    ensures { out.new ≡ onto (pair_at trial.now.residuals trial.now.reaches i) out.old }
{
    trial.residuals[i].write(out);
    trial.reaches[i].write(&mut out[REACH_AT..]);
}

// The pairs of n rows, each lent its part of out.
fn write_pairs(n: usize, trial: &MeasuredTrial, out: &mut [u8])
    requires { (n ≤ most_tanks) × (rows_length n ≤ length out.old) }
    ensures { out.new ≡ onto (run n (pair_at trial.now.residuals trial.now.reaches)) out.old }
{
    for i in 0..n {
        write_pair(i, trial, &mut out[i * PAIR_SIZE..]);
    }
}

// Field 13, over the front of out.
fn write_factor(none: bool, decides: u8, out: &mut [u8])
    requires { header_size + factor_length ≤ length out.old }
    ensures { out.new ≡ onto (factor_field none decides) out.old }
{
    let m = flag(none);
    fields::write_header(FACTOR_TAG, FACTOR_LENGTH, out);
    out[NONE_AT] = m;
    out[DECIDES_AT] = decides;
}

// Field 11, over the front of out: the first n figures of the answer.
fn write_answer(n: usize, answer: &[i32], out: &mut [u8])
    requires { (n ≤ most_tanks) × ((n ≤ length answer.now) × (header_size + answer_length n ≤ length out.old)) }
    ensures { out.new ≡ onto (answer_field n answer.now) out.old }
{
    let places = condition_places(n);
    fields::write_header(ANSWER_TAG, places.answer_len as u16, out);
    figures::write(&answer[..n], &mut out[HEADER_SIZE..]);
}

// Field 12, over the front of out.
fn write_rows(n: usize, trial: &MeasuredTrial, out: &mut [u8])
    requires { (n ≤ most_tanks) × (header_size + rows_length n ≤ length out.old) }
    ensures { out.new ≡ onto (rows_field n trial.now.residuals trial.now.reaches) out.old }
{
    let places = condition_places(n);
    fields::write_header(ROWS_TAG, places.rows_len as u16, out);
    write_pairs(n, trial, &mut out[HEADER_SIZE..]);
}

// The fields 10 to 13 of one condition, over the front of out: the first n figures of its answer, the rounds used, and what is concluded of them. The
// length of the four fields is returned, and bytes beyond them stay as they were. Rounds and conclusion are handed over one by one: the struct that
// holds both is the solver's, and a record is of any judged trial.
pub fn write_condition(
    n: usize,
    rounds: usize,
    conclusion: Conclusion,
    trial: &MeasuredTrial,
    out: &mut [u8],
) -> usize
    requires { ConditionFits n rounds (judgement_from conclusion trial.now.residuals trial.now.reaches) (length out.old) }
    ensures { Wrote (condition_fields n rounds trial.now.figures (judgement_from conclusion trial.now.residuals trial.now.reaches)) 0 out.old result out.new }
{
    let places = condition_places(n);
    write_verdict(conclusion.met, conclusion.unmet as u8, rounds as u8, out);
    write_answer(n, &trial.figures, &mut out[ANSWER_AT..]);
    write_rows(n, trial, &mut out[places.rows..]);
    write_factor(
        conclusion.none,
        conclusion.decides as u8,
        &mut out[places.factor..],
    );
    places.len
}

// The whole record over the front of out: the fields of its condition, and the end field behind them. The record's length is returned, and bytes
// beyond it stay as they were.
pub fn write_record(
    n: usize,
    rounds: usize,
    conclusion: Conclusion,
    trial: &MeasuredTrial,
    out: &mut [u8],
) -> usize
    requires { RecordFits n rounds (judgement_from conclusion trial.now.residuals trial.now.reaches) (length out.old) }
    ensures { Wrote (record_of n rounds trial.now.figures (judgement_from conclusion trial.now.residuals trial.now.reaches)) 0 out.old result out.new }
{
    let end = write_condition(n, rounds, conclusion, trial, out);
    fields::write_end(&mut out[end..]);
    end + fields::END_SIZE
}
