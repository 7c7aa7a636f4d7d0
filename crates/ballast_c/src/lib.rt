// What a program in C or Rust links: the calls on numbers and byte slices, each with one result number. `include/ballast.h` declares them.
#![tactic(auto)]

ghost use Rattle.std.specs.Prelude.{◌≡◌};
ghost use Rattle.casefile.specs.Case.{case_of_lists};
ghost use Rattle.casefile.specs.Decode.{decode};
ghost use Rattle.casefile.specs.Write.{write};
ghost use Rattle.soundings.specs.Soundings.{soundings_result};
ghost use Rattle.verdict_text.specs.Verdict.{text_call};
ghost use Rattle.matrixfile.specs.Read.{matrix_reading};
ghost use Rattle.matrixfile.specs.Text.{matrix_writing};
ghost use Rattle.ballast_c.specs.Calls.{tank_count, Judged};
ghost use Rattle.ballast_c.specs.Result.{result_number, CountFits, Returned};

use casefile::{CaseHead, CaseLists, NO_FIGURES};
use outcome::Refusal;

// A count, or a refusal's number below zero.
fn result(outcome: Result<usize, Refusal>) -> i64
    requires { CountFits outcome }
    ensures { result ≡ result_number outcome }
{
    match outcome {
        Ok(count) => count as i64,
        Err(refusal) => -i64::from(refusal.number()),
    }
}

// The number of tanks of a case, or the reader's refusal.
#[unsafe(no_mangle)]
pub extern "C" fn ballast_check_case(input: &[u8]) -> i64
    ensures { result ≡ result_number (tank_count (decode input.now)) }
{
    let mut figures = NO_FIGURES;
    match case_reader::read_case(input, &mut figures) {
        Ok(head) => result(Ok(head.n)),
        Err(refusal) => result(Err(refusal)),
    }
}

// Judges a case into a buffer.
#[unsafe(no_mangle)]
pub extern "C" fn ballast_judge_case(input: &[u8], out: &mut [u8]) -> i64
    ensures { Judged input.now out.old result out.new }
{
    result(ballast::judge_case(input, out))
}

// Writes the depths of a case's answer into a buffer.
#[unsafe(no_mangle)]
pub extern "C" fn ballast_soundings(input: &[u8], out: &mut [u8]) -> i64
    ensures { Returned result out.new (soundings_result input.now out.old) }
{
    result(soundings::soundings(input, out))
}

// Renders the printed verdict of a case into a buffer.
#[unsafe(no_mangle)]
pub extern "C" fn ballast_verdict_text(input: &[u8], out: &mut [u8]) -> i64
    ensures { Returned result out.new (text_call input.now out.old) }
{
    result(verdict_text::verdict_text(input, out))
}

// Writes a case into a buffer. C hands the figures over one by one.
#[unsafe(no_mangle)]
pub extern "C" fn ballast_write_case(
    n: usize,
    exponent: usize,
    rounds: usize,
    coefficients: &[i16],
    tolerances: &[u16],
    right_sides: &[i32],
    right_tolerances: &[u32],
    trial: &[i32],
    out: &mut [u8],
) -> i64
    ensures { Returned result out.new (write (case_of_lists n exponent rounds coefficients.now tolerances.now right_sides.now right_tolerances.now trial.now) out.old) }
{
    let case = CaseLists {
        head: CaseHead {
            n,
            exponent,
            rounds,
        },
        coefficients,
        tolerances,
        right_sides,
        right_tolerances,
        trial,
    };
    result(case_writer::write_case(case, out))
}

// Reads a Matrix Market file into a list of coefficients.
#[unsafe(no_mangle)]
pub extern "C" fn ballast_read_matrix(text: &[u8], coefficients: &mut [i16]) -> i64
    ensures { Returned result coefficients.new (matrix_reading text.now coefficients.old) }
{
    result(matrix_reader::read_matrix(text, coefficients))
}

// Writes coefficients as a Matrix Market file into a buffer.
#[unsafe(no_mangle)]
pub extern "C" fn ballast_write_matrix(n: usize, coefficients: &[i16], out: &mut [u8]) -> i64
    ensures { Returned result out.new (matrix_writing n coefficients.now out.old) }
{
    result(matrix_writer::write_matrix(n, coefficients, out))
}
