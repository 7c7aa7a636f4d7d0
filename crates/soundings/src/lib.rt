// Soundings: the depth of each tank's answer in the reference tank, of any bytes as a case.
#![tactic(auto)]

ghost use Rattle.std.specs.Prelude.{◌*◌, ◌<◌, ◌≤◌, length, ◌≡◌};
ghost use Rattle.std.specs.Int.{w16};
ghost use Rattle.buffer.specs.Buffer.{onto};
ghost use Rattle.outcome.specs.CallResult.{call_result, write_if_accepted};
ghost use Rattle.bigendian.specs.Number.{size};
ghost use Rattle.soundings.specs.Soundings.{all_are_inside, depth_bytes, table_status, soundings_result, SoundingTable, DepthsFit};

use bigendian::BigEndian;
use judge::ZERO_TRIAL;
use limits::MOST_TANKS;
use outcome::Refusal;

// A depth is a number of 16 bits.
const DEPTH_SIZE: usize = u16::SIZE;

// The shortest buffer for depths: two bytes for each of eight tanks.
pub const SOUNDINGS_ROOM: usize = DEPTH_SIZE * MOST_TANKS;

// Whether each answer is inside the table. Table, scale and answers stay three: the table is a ship's, the others are a case's.
fn all_inside(table: &[u32], scale: u16, answer: &[i32]) -> bool
    requires { 0 < length table.now }
    ensures { result ≡ all_are_inside table.now scale answer.now }
{
    answer
        .iter()
        .all(|figure| sounding_table::inside(table, scale, *figure))
}

// The depths of answers that are inside the table, over the front of out.
fn write_depths(table: &[u32], scale: u16, answer: &[i32], out: &mut [u8])
    requires { DepthsFit table.now scale answer.now out.old }
    ensures { out.new ≡ onto (depth_bytes table.now scale answer.now) out.old }
{
    for (j, figure) in answer.iter().enumerate() {
        let depth = sounding_table::depth(table, scale, *figure);
        (depth as u16).write(&mut out[j * DEPTH_SIZE..]);
    }
}

// The depths of the answers over the front of out, and how many bytes they have; or refusal 10, with out as it was.
fn write_soundings(
    table: &[u32],
    scale: u16,
    answer: &[i32],
    out: &mut [u8],
) -> Result<usize, Refusal>
    requires { (SoundingTable table.now) × (size w16 * length answer.now ≤ length out.old) }
    ensures { call_result result out.new ≡ write_if_accepted (table_status table.now scale answer.now) (depth_bytes table.now scale answer.now) out.old }
{
    if !all_inside(table, scale, answer) {
        return Err(Refusal::OutsideTable);
    }
    write_depths(table, scale, answer, out);
    Ok(DEPTH_SIZE * answer.len())
}

// The soundings of any bytes as a case: two bytes for each tank's depth in the reference tank, tank 1 first, over the front of out, whose bytes beyond them
// stay as they were, and the count 2n. Refuses with 1 an out shorter than SOUNDINGS_ROOM, then with 2 to 9 as a record, then with 10 where an answer is
// negative or above the table's last entry; no byte of out has then changed. It writes no record.
pub fn soundings(input: &[u8], out: &mut [u8]) -> Result<usize, Refusal>
    ensures { call_result result out.new ≡ soundings_result input.now out.old }
{
    if out.len() < SOUNDINGS_ROOM {
        return Err(Refusal::BufferTooShort);
    }
    let mut trial = ZERO_TRIAL;
    let answer = ballast::answer_case(input, &mut trial);
    // The refusal is named here, where a `?` alone would do, so that a must-fail edit can put another in its place.
    answer.kept.map_err(|unsolved| unsolved.refusal)?;
    let table = sounding_table::reference_tank();
    let scale = integers::power_of_ten(answer.exponent);
    write_soundings(&table, scale, &trial.figures[..answer.n], out)
}
