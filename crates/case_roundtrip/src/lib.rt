// Demand 2's round trip as a caller sees it: these functions use the contracts of the reader and the writer and nothing inside them.
#![tactic(auto)]

ghost use Rattle.std.specs.Prelude.{◌≡◌};
ghost use Rattle.outcome.specs.CallResult.{call_result};
ghost use Rattle.casefile.specs.Decode.{decode, CaseRead};
ghost use Rattle.case_writer.specs.Given.{given};
ghost use Rattle.case_roundtrip.specs.Trip.{WrittenAndRead, written_again};

use casefile::{CaseLists, StoredCase};
use outcome::Refusal;

// A case read into arrays of zeros.
fn read_stored(s: &[u8]) -> Result<StoredCase, Refusal>
    ensures { CaseRead (decode s.now) result }
{
    let mut figures = casefile::NO_FIGURES;
    let head = case_reader::read_case(s, &mut figures)?;
    Ok(StoredCase { head, figures })
}

// Writes a case into out and reads back what was written: what was meant, or the writer's refusal.
pub fn write_and_read(case: CaseLists<'_>, out: &mut [u8]) -> Result<StoredCase, Refusal>
    ensures { WrittenAndRead (given case.entry) out.old result out.new }
{
    let m = case_writer::write_case(case, out)?;
    read_stored(&out[..m])
}

// Reads a case and writes it again: the old bytes over the front of out, whose other bytes stay; or the refusal, and out as it was.
pub fn read_and_write(s: &[u8], out: &mut [u8]) -> Result<usize, Refusal>
    ensures { call_result result out.new ≡ written_again (decode s.now) s.now out.old }
{
    let stored = read_stored(s)?;
    let head = stored.head;
    let n = head.n;
    let square = n * n;
    let tail = head.tail_places();
    let count = tail.trial_count;
    let case = CaseLists {
        head,
        coefficients: &stored.figures.coefficients[..square],
        tolerances: &stored.figures.tolerances[..square],
        right_sides: &stored.figures.right_sides[..n],
        right_tolerances: &stored.figures.right_tolerances[..n],
        trial: &stored.figures.trial[..count],
    };
    case_writer::write_case(case, out)
}
