// Sounding tables: the kilograms that a tank holds at each whole centimetre of depth, from 0 on, and the depth of an answer in such a table.
// A table is lent as a slice, so that a ship's own can stand in for the reference tank.
#![tactic(auto)]

mod entries;

ghost use Rattle.std.specs.Prelude.{◌*◌, ◌<◌, pos, nat_abs, length, false, ◌≡◌};
ghost use Rattle.std.specs.Int.Signed.{lt_z};
ghost use Rattle.sounding_table.specs.Depth.{kilograms_in_tonne, depth as depth_in, inside as inside_of, Searchable};
ghost use Rattle.sounding_table.specs.Table.{reference_tank_entries};

use entries::{REFERENCE_ENTRIES, REFERENCE_TANK};

const KILOGRAMS_IN_TONNE: u64 = 1000;

// The reference tank's entries.
pub fn reference_tank() -> [u32; REFERENCE_ENTRIES]
    ensures { result ≡ reference_tank_entries }
{
    REFERENCE_TANK
}

// D times the kilograms of an entry, and D times those of an answer that is not negative: both sides of a comparison.

fn scaled_entry(entry: u32, scale: u16) -> u64
    ensures { result ≡ entry * scale }
{
    entry as u64 * scale as u64
}

fn scaled_answer(answer: i32) -> u64
    requires { lt_z answer (pos 0) ≡ false }
    ensures { result ≡ nat_abs answer * kilograms_in_tonne }
{
    answer as u64 * KILOGRAMS_IN_TONNE
}

// Whether an answer is neither negative nor above the table's last entry.
pub fn inside(table: &[u32], scale: u16, answer: i32) -> bool
    requires { 0 < length table.now }
    ensures { result ≡ inside_of table.now scale answer }
{
    if answer < 0 {
        return false;
    }
    scaled_answer(answer) <= scaled_entry(table[table.len() - 1], scale)
}

// The greatest depth whose entry is not above the answer: the entries that are not above stand first, and their last one is the depth's.
pub fn depth(table: &[u32], scale: u16, answer: i32) -> usize
    requires { Searchable table.now scale answer }
    ensures { result ≡ depth_in table.now scale answer }
{
    let mass = scaled_answer(answer);
    table.partition_point(|entry| scaled_entry(*entry, scale) <= mass) - 1
}
