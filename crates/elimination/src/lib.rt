// Elimination with row exchanges on working numbers.
#![tactic(auto)]

ghost use Rattle.std.specs.Prelude.{◌<◌, ◌≤◌, pos, ◌*ℤ◌, [], ◌≡◌};
ghost use Rattle.limits.specs.Limits.{most_tanks};
ghost use Rattle.rounding.specs.Round.{rnd};
ghost use Rattle.rounding.specs.Scale.{multiplier_scale};
ghost use Rattle.elimination.specs.Conditions.{StartRow, StartRows, Dividing, RowEliminable, Pivoted};
ghost use Rattle.elimination.specs.Outcome.{Eliminates};
ghost use Rattle.elimination.specs.Steps.{working_row, working_matrix, exchange, eliminated_row, eliminated_below};
ghost use Rattle.elimination.specs.Steps.{zero_row, zero_rows};

use integers::magnitude;
use limits::{MOST_COEFFICIENTS, MOST_TANKS};
use rounding::{rounded_by_scale, rounded_quotient};

// The working numbers start at 256 × A.
pub const WORKING_SCALE: i64 = 256;

// The scale of the multipliers, as a factor of a working number.
const MULTIPLIER_SCALE: i64 = rounding::MULTIPLIER_SCALE as i64;

// Row i of the working numbers at the start, over a row of zeros. Coefficients and n are all that the steps take of the equations, so no struct holds
// the bound of n here.
fn fill_row(
    n: usize,
    coefficients: &[i16; MOST_COEFFICIENTS],
    i: usize,
    row: &mut [i64; MOST_TANKS],
)
    requires { (n ≤ most_tanks) × (i < n) × (row.old ≡ zero_row) }
    ensures { StartRow row.new (working_row n coefficients.now i) }
{
    for j in 0..n {
        row[j] = WORKING_SCALE * i64::from(coefficients[i * n + j]);
    }
}

// The working numbers at the start, over rows of zeros.
fn fill_rows(
    n: usize,
    coefficients: &[i16; MOST_COEFFICIENTS],
    w: &mut [[i64; MOST_TANKS]; MOST_TANKS],
)
    requires { (n ≤ most_tanks) × (w.old ≡ zero_rows) }
    ensures { StartRows w.new (working_matrix n coefficients.now) }
{
    for i in 0..n {
        fill_row(n, coefficients, i, &mut w[i]);
    }
}

// M = rnd(16,384 × entry / pivot), at most 16,384 since no entry below the pivot is larger.
fn multiplier_of(entry: i64, pivot: i64) -> i64
    requires { Dividing entry pivot }
    ensures { result ≡ rnd (pos multiplier_scale *ℤ entry) pivot }
{
    rounded_quotient(MULTIPLIER_SCALE * entry, pivot)
}

// Column k eliminated in a row below the pivot's row `top`; the row's multiplier is kept there.
fn eliminate_row(top: &[i64; MOST_TANKS], row: &mut [i64; MOST_TANKS], k: usize, n: usize)
    requires { RowEliminable top.now row.old k n }
    ensures { row.new ≡ eliminated_row top.now row.old k n }
{
    let m = multiplier_of(row[k], top[k]);
    for j in k + 1..n {
        row[j] -= rounded_by_scale(m * top[j]);
    }
    row[k] = m;
}

// Step k: rows k and `pivot` exchanged, and column k eliminated in every row below row k.
fn step(
    mut w: [[i64; MOST_TANKS]; MOST_TANKS],
    k: usize,
    pivot: usize,
    n: usize,
) -> [[i64; MOST_TANKS]; MOST_TANKS]
    requires { (pivot < most_tanks) × Pivoted (exchange [] w k pivot) k n }
    ensures { result ≡ eliminated_below (exchange [] w k pivot) k n }
{
    w.swap(k, pivot);
    let top = w[k];
    for i in k + 1..n {
        eliminate_row(&top, &mut w[i], k, n);
    }
    w
}

// The end before the last step: `steps` were made, and at the next every candidate for the pivot is zero (refusal 8).
#[derive(Clone, Copy, Debug, PartialEq, Eq)]
pub struct ZeroPivot {
    pub steps: usize,
}

// What the steps leave: the working matrix, with each multiplier in the place that it eliminated, and the order, the index of the row
// that stands at each place.
#[derive(Clone, Copy, Debug, PartialEq, Eq)]
pub struct Eliminated {
    pub working: [[i64; MOST_TANKS]; MOST_TANKS],
    pub order: [usize; MOST_TANKS],
}

// All steps of the elimination of n rows of coefficients, which stand row after row, or those before the first whose candidates are all
// zero. `eliminated` is written whole, whatever it held, after an early end too. Asks that there are at most 8 rows.
// Document 01 names the form of its loops, of the steps and of the rows, both left by a label where no pivot is found.
pub fn eliminate(
    n: usize,
    coefficients: &[i16; MOST_COEFFICIENTS],
    eliminated: &mut Eliminated,
) -> Result<(), ZeroPivot>
    requires { n ≤ most_tanks }
    ensures { Eliminates n coefficients.now result eliminated.new.working eliminated.new.order }
{
    eliminated.working = [[0i64; MOST_TANKS]; MOST_TANKS];
    fill_rows(n, coefficients, &mut eliminated.working);
    eliminated.order = [0, 1, 2, 3, 4, 5, 6, 7];
    let mut outcome = Ok(());
    'steps: for k in 0..n {
        let mut pivot = k;
        let mut largest = magnitude(eliminated.working[k][k]);
        let mut i = k + 1;
        'rows: loop {
            if i == n {
                if largest == 0 {
                    outcome = Err(ZeroPivot { steps: k });
                    break 'steps;
                }
                break 'rows;
            }
            let size = magnitude(eliminated.working[i][k]);
            if largest < size {
                pivot = i;
                largest = size;
            }
            i += 1;
        }
        // the last step has no row below it and its pivot is its own row, so it changes nothing
        if k + 1 < n {
            eliminated.working = step(eliminated.working, k, pivot, n);
            eliminated.order.swap(k, pivot);
        }
    }
    outcome
}
