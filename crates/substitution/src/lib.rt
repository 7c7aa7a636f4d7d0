// Substitution with an eliminated working matrix: the forward pass with the multipliers, the backward pass with the pivots.
#![tactic(auto)]

ghost use Rattle.std.specs.Prelude.{pos, get_or, ◌≡◌};
ghost use Rattle.substitution.specs.Bounds.{Forward, Backward, Reducible, Summable, Correctable};
ghost use Rattle.substitution.specs.Passes.{after_losses, forward, sum_above_row, correction, corrections, backward};

use elimination::WORKING_SCALE;
use integers::magnitude;
use limits::MOST_TANKS;
use rounding::{rounded_by_scale, rounded_quotient};

// "A correction is outside ±20,000,000."
const CORRECTION_LIMIT: u64 = 20000000;

// Entry i of the right-hand side, less what the row's multipliers take of the entries above it.
fn reduced_entry(row: &[i64; MOST_TANKS], z: &[i64; MOST_TANKS], i: usize) -> i64
    requires { Reducible row.now z.now i }
    ensures { result ≡ after_losses row.now z.now (get_or z.now i (pos 0)) i }
{
    let mut s = z[i];
    for j in 0..i {
        s -= rounded_by_scale(row[j] * z[j]);
    }
    s
}

// The sum over the columns above i of the row's entries times the corrections.
fn sum_above(row: &[i64; MOST_TANKS], d: &[i64; MOST_TANKS], i: usize, n: usize) -> i64
    requires { Summable row.now d.now i n }
    ensures { result ≡ sum_above_row row.now d.now i n }
{
    let mut s: i64 = 0;
    for j in i + 1..n {
        s += row[j] * d[j];
    }
    s
}

// The correction of row i, from the entry of the right-hand side and the corrections above.
fn correction_of(row: &[i64; MOST_TANKS], z: i64, d: &[i64; MOST_TANKS], i: usize, n: usize) -> i64
    requires { Correctable row.now z d.now i n }
    ensures { result ≡ correction row.now z d.now i n }
{
    let above = sum_above(row, d, i, n);
    rounded_quotient(WORKING_SCALE * z - above, row[i])
}

// Every entry of the right-hand side reduced by the multipliers, from the top, in place. Entries past the rows stay as they are. The two passes are no
// methods of `Eliminated`: they read its working matrix alone, and that type's crate is below this one.
pub fn forward_pass(working: &[[i64; MOST_TANKS]; MOST_TANKS], z: &mut [i64; MOST_TANKS], n: usize)
    requires { Forward working.now z.old n }
    ensures { z.new ≡ forward working.now z.old n }
{
    for i in 0..n {
        z[i] = reduced_entry(&working[i], z, i);
    }
}

// The corrections, from the last row to the first, and whether all of them were formed, each within its limit: a bool, since what d holds is said either way. The first outside it ends the pass; those not formed are 0, whatever d held.
pub fn backward_pass(
    working: &[[i64; MOST_TANKS]; MOST_TANKS],
    z: &[i64; MOST_TANKS],
    n: usize,
    d: &mut [i64; MOST_TANKS],
) -> bool
    requires { Backward working.now z.now n }
    ensures { corrections result d.new ≡ backward working.now z.now n }
{
    *d = [0i64; MOST_TANKS];
    for i in (0..n).rev() {
        let v = correction_of(&working[i], z[i], d, i, n);
        if CORRECTION_LIMIT < magnitude(v) {
            return false;
        }
        d[i] = v;
    }
    true
}
