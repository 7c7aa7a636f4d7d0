// The writer of Matrix Market files.
#![tactic(auto)]

ghost use Rattle.std.specs.Prelude.{◌+◌, ◌*◌, ◌≤◌, length, ◌≡◌};
ghost use Rattle.buffer.specs.Buffer.{Wrote, joined};
ghost use Rattle.decimal.specs.Writing.{HasRoom, Writes};
ghost use Rattle.outcome.specs.CallResult.{call_result};
ghost use Rattle.outcome.specs.Outcome.{Accepted, status_number};
ghost use Rattle.matrixfile.specs.Text.{entry_line, longest_entry_line, transpose, matrix_text, longest_text, matrix_status, matrix_writing};

use decimal::TextWriter;
use outcome::Refusal;

// The first refusal of a matrix that is to be written, or none.
fn check_matrix(n: usize, coefficients: &[i16]) -> Result<(), Refusal>
    ensures { status_number result ≡ status_number (matrix_status n coefficients.now) }
{
    outcome::check(casefile::tanks_fine(n), Refusal::OutsideLimits)?;
    outcome::check(
        casefile::coefficients_counted(n, coefficients),
        Refusal::WrongLength,
    )?;
    outcome::check(
        casefile::coefficients_fine(coefficients),
        Refusal::OutsideLimits,
    )
}

// An entry's line.
fn write_entry(entry: i16, to: &mut TextWriter<'_>)
    requires { HasRoom (entry_line entry) to.old }
    ensures { Writes (entry_line entry) to.old to.new }
{
    to.signed(entry as i64);
    to.bytes(b"\n");
}

// The lines of all entries, column after column. n and the list stay two, as a caller has them: `check_matrix` answers for those that do not fit.
fn write_entries(n: usize, coefficients: &[i16], to: &mut TextWriter<'_>)
    requires { (matrix_status n coefficients.now ≡ Accepted) × (to.old.at + length coefficients.now * longest_entry_line ≤ length to.old.out.now) }
    ensures { Writes (joined entry_line (transpose n coefficients.now)) to.old to.new }
{
    for k in 0..coefficients.len() {
        write_entry(coefficients[k % n * n + k / n], to);
    }
}

// The text of a matrix that nothing refuses, over the front of out, and its length.
fn write_text(n: usize, coefficients: &[i16], out: &mut [u8]) -> usize
    requires { (matrix_status n coefficients.now ≡ Accepted) × (longest_text ≤ length out.old) }
    ensures { Wrote (matrix_text n coefficients.now) 0 out.old result out.new }
{
    let mut to = TextWriter { out, at: 0 };
    to.bytes(&matrixfile::FIRST_LINE);
    let digit = b'0' + n as u8;
    to.bytes(&[digit, b' ', digit, b'\n']);
    write_entries(n, coefficients, &mut to);
    to.at
}

// Writes a matrix of coefficients, given row after row, as a text over the front of out and returns its length; bytes beyond it stay. It refuses, and
// changes no byte, with 1 a buffer shorter than the longest text, then with 6 an n outside its limits, then with 4 a list whose count is not n * n, then
// with 6 a coefficient outside its limits.
pub fn write_matrix(n: usize, coefficients: &[i16], out: &mut [u8]) -> Result<usize, Refusal>
    ensures { call_result result out.new ≡ matrix_writing n coefficients.now out.old }
{
    if out.len() < matrixfile::LONGEST_TEXT {
        return Err(Refusal::BufferTooShort);
    }
    check_matrix(n, coefficients)?;
    Ok(write_text(n, coefficients, out))
}
