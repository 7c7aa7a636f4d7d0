// The judgement of a trial answer, exactly, by the theorem of Oettli and Prager.
#![tactic(auto)]

ghost use Rattle.std.specs.Prelude.{ℕ, ◌+◌, ◌*◌, ◌^◌, ◌≤◌, ◌<◌, pos, nat_abs, get_or, ◌≡◌};
ghost use Rattle.limits.specs.Limits.{most_tanks, most_coefficients};
ghost use Rattle.integers.specs.Tables.{filled};
ghost use Rattle.fractions.specs.Fraction.{order};
ghost use Rattle.fractions.specs.Greatest.{is_greater_order, first_greatest};
ghost use Rattle.judge.specs.Judgement.{row_met, factor, no_factor, first_not, measurement_from, judgement_from, measurement, concluded, judgement};
ghost use Rattle.judge.specs.Magnitudes.{Magnitudes};
ghost use Rattle.judge.specs.RowSums.{product_sum, weight_sum};
ghost use Rattle.judge.specs.System.{residual as residual_of, reach as reach_of, coefficients_from, tolerances_from, trial_figures, row};

use integers::{magnitude, scaled};
use limits::{MOST_COEFFICIENTS, MOST_TANKS};

// D f of one row.
fn scaled_tolerance(scale: u16, right_tolerance: u32) -> u64
    ensures { (result ≡ scale * right_tolerance) × (result ≤ 2 ^ 48) }
{
    (scale as u64) * (right_tolerance as u64)
}

// E |Y| of one tank.
fn weight(tolerance: u16, absolute: u64) -> u64
    requires { absolute ≤ 2 ^ 31 }
    ensures { (result ≡ tolerance * absolute) × (result ≤ 2 ^ 47) }
{
    (tolerance as u64) * absolute
}

// A trial's figures in 64 bits, and their absolute values.
#[derive(Clone, Copy, Debug, PartialEq, Eq)]
struct WideFigures {
    figures: [i64; MOST_TANKS],
    magnitudes: [u64; MOST_TANKS],
}

// The trial's first n figures, 0 past the last: formed once, for all rows.
fn widen(n: usize, trial: &[i32; MOST_TANKS]) -> WideFigures
    requires { n ≤ most_tanks }
    ensures figures { result.figures ≡ filled most_tanks n (pos 0) (λ j. get_or trial.now j (pos 0)) }
    ensures magnitudes { result.magnitudes ≡ filled most_tanks n 0 (λ j. nat_abs (get_or trial.now j (pos 0))) }
    ensures small { (j : ℕ) → j < n → nat_abs (get_or trial.now j (pos 0)) ≤ 2 ^ 31 }
{
    let mut wide = WideFigures {
        figures: [0; MOST_TANKS],
        magnitudes: [0; MOST_TANKS],
    };
    for j in 0..n {
        let y = trial[j] as i64;
        wide.figures[j] = y;
        wide.magnitudes[j] = magnitude(y);
    }
    wide
}

// The two sums of a row: of A × Y, and of E × |Y|.
#[derive(Clone, Copy, Debug, PartialEq, Eq)]
struct RowSums {
    products: i64,
    weights: u64,
}

// What a trial leaves of one row.
#[derive(Clone, Copy, Debug, PartialEq, Eq)]
struct RowMeasurement {
    residual: i64,
    reach: u64,
}

impl RowMeasurement {
    fn is_met(self) -> bool
        ensures { result ≡ row_met self.residual self.reach }
    {
        magnitude(self.residual) <= self.reach
    }

    // Whether the row has no factor: a residual, and no reach.
    fn lacks_factor(self) -> bool
        ensures { result ≡ no_factor self.residual self.reach }
    {
        self.reach == 0 && magnitude(self.residual) != 0
    }

    // Whether the row's factor is greater than another's.
    fn exceeds(self, other: RowMeasurement) -> bool
        ensures { result ≡ is_greater_order (order (factor self.residual self.reach) (factor other.residual other.reach)) }
    {
        fractions::exceeds(
            magnitude(self.residual),
            self.reach,
            magnitude(other.residual),
            other.reach,
        )
    }
}

// What a loading condition brings: the right-hand sides b of its rows, and their tolerances f. Lists apart, here and below, and no list of pairs: they are
// those of document 01 and of every definition.
#[derive(Clone, Copy, Debug, PartialEq, Eq)]
pub struct RightHandSide {
    pub values: [i32; MOST_TANKS],
    pub tolerances: [u32; MOST_TANKS],
}

// n equations over n tanks, their figures and the tolerances of these: document 01's n, D, A, E, b and f.
#[derive(Clone, Copy, Debug, PartialEq, Eq)]
pub struct Equations<'a> {
    pub n: usize,
    pub scale: u16,
    pub coefficients: &'a [i16; MOST_COEFFICIENTS],
    pub tolerances: &'a [u16; MOST_COEFFICIENTS],
    pub right_hand_side: RightHandSide,
    pub ghost small: { n ≤ most_tanks },
}

// A trial Y, and what it leaves of each row: the residuals R and the reaches T.
#[derive(Clone, Copy, Debug, PartialEq, Eq)]
pub struct MeasuredTrial {
    pub figures: [i32; MOST_TANKS],
    pub residuals: [i64; MOST_TANKS],
    pub reaches: [u64; MOST_TANKS],
}

// Zeros everywhere: what a trial that is still to be formed holds.
pub const ZERO_TRIAL: MeasuredTrial = MeasuredTrial {
    figures: [0; MOST_TANKS],
    residuals: [0; MOST_TANKS],
    reaches: [0; MOST_TANKS],
};

impl<'a> Equations<'a> {
    ghost use Rattle.judge.specs.Equations.{system_of, trial_for};

    // The sums over the n tanks of the row whose coefficients and tolerances start at `from`, in one pass, tank by tank from the first: what stands
    // after each tank is said by `running_products` and `running_weights` (judge/RowSumLaws).
    fn row_sums(&self, from: usize, trial: &WideFigures) -> RowSums
        requires { (from + self.now.n ≤ most_coefficients) × Magnitudes self.now.n trial.now.figures trial.now.magnitudes }
        ensures products { result.products ≡ product_sum (coefficients_from from self.now.coefficients.now) (trial_figures trial.now.figures) self.now.n }
        ensures weights { result.weights ≡ weight_sum (tolerances_from from self.now.tolerances.now) (trial_figures trial.now.figures) self.now.n }
        ensures small { (nat_abs result.products ≤ self.now.n * 2 ^ 46) × (result.weights ≤ self.now.n * 2 ^ 47) }
    {
        let mut products = 0;
        let mut weights = 0;
        for j in 0..self.n {
            products += (self.coefficients[from + j] as i64) * trial.figures[j];
            weights += weight(self.tolerances[from + j], trial.magnitudes[j]);
        }
        RowSums { products, weights }
    }

    // Residual and reach of row i, counted from 0.
    fn measure_row(&self, i: usize, trial: &WideFigures) -> RowMeasurement
        requires { (i < self.now.n) × Magnitudes self.now.n trial.now.figures trial.now.magnitudes }
        ensures residual { result.residual ≡ residual_of (row (system_of self.now) i) (trial_for self.now trial.now.figures) }
        ensures reach { result.reach ≡ reach_of (row (system_of self.now) i) (trial_for self.now trial.now.figures) }
    {
        let sums = self.row_sums(i * self.n, trial);
        RowMeasurement {
            residual: scaled(self.scale, self.right_hand_side.values[i]) - sums.products,
            reach: scaled_tolerance(self.scale, self.right_hand_side.tolerances[i]) + sums.weights,
        }
    }

    // The measurement of a trial: residual and reach of every row, 0 past the last, and the first unmet row, counted from 1, or 0. Whatever residuals
    // and reaches stood there, they are written whole.
    pub fn measure(&self, trial: &mut MeasuredTrial) -> usize
        ensures figures { trial.new.figures ≡ trial.old.figures }
        ensures measurement { measurement_from result trial.new.residuals trial.new.reaches ≡ measurement (system_of self.now) (trial_for self.now trial.old.figures) }
    {
        trial.residuals = [0; MOST_TANKS];
        trial.reaches = [0; MOST_TANKS];
        let wide = widen(self.n, &trial.figures);
        for i in 0..self.n {
            let row = self.measure_row(i, &wide);
            trial.residuals[i] = row.residual;
            trial.reaches[i] = row.reach;
        }
        trial.first_unmet(self.n)
    }

    // The judgement of a trial, whoever proposed it. Whatever residuals and reaches stood there, they are written whole.
    pub fn judge(&self, trial: &mut MeasuredTrial) -> Conclusion
        ensures figures { trial.new.figures ≡ trial.old.figures }
        ensures judgement { judgement_from result trial.new.residuals trial.new.reaches ≡ judgement (system_of self.now) (trial_for self.now trial.old.figures) }
    {
        let unmet = self.measure(trial);
        trial.conclude(self.n, unmet)
    }
}

// What is said of a trial besides the residuals and reaches of its rows. Rows are counted from 1. Four plain values and no Option, since document
// 01's record has these four.
#[derive(Clone, Copy, Debug, PartialEq, Eq)]
pub struct Conclusion {
    // whether every row is met, and the first that is not, or 0
    pub met: bool,
    pub unmet: usize,
    // whether some row has no factor, and the row that decides
    pub none: bool,
    pub decides: usize,
}

impl MeasuredTrial {
    // What the trial leaves of row i, counted from 0.
    fn row(&self, i: usize) -> RowMeasurement
        requires { i < most_tanks }
        ensures residual { result.residual ≡ get_or self.now.residuals i (pos 0) }
        ensures reach { result.reach ≡ get_or self.now.reaches i 0 }
    {
        RowMeasurement {
            residual: self.residuals[i],
            reach: self.reaches[i],
        }
    }

    // The first unmet row of n, counted from 1, or 0: the number that a record has, so an Option would only be turned back into it.
    fn first_unmet(&self, n: usize) -> usize
        requires { n ≤ most_tanks }
        ensures { result ≡ first_not (λ i. row_met (get_or self.now.residuals i (pos 0)) (get_or self.now.reaches i 0)) n }
    {
        for i in 0..n {
            if !self.row(i).is_met() {
                return i + 1;
            }
        }
        0
    }

    // The place, from 0, of the first row of n that has no factor, or of the first with the greatest.
    fn greatest_factor(&self, n: usize) -> usize
        requires { n ≤ most_tanks }
        ensures { result ≡ first_greatest (λ i. factor (get_or self.now.residuals i (pos 0)) (get_or self.now.reaches i 0)) n }
    {
        let mut best = 0;
        for i in 1..n {
            if self.row(i).exceeds(self.row(best)) {
                best = i;
            }
        }
        best
    }

    // The judgement of n rows, from what the trial leaves of them. n is a plain number here: a trial has no equations.
    pub fn conclude(&self, n: usize, unmet: usize) -> Conclusion
        requires { n ≤ most_tanks }
        ensures { judgement_from result self.now.residuals self.now.reaches ≡ concluded n (measurement_from unmet self.now.residuals self.now.reaches) }
    {
        let at = self.greatest_factor(n);
        Conclusion {
            met: unmet == 0,
            unmet,
            none: self.row(at).lacks_factor(),
            decides: at + 1,
        }
    }
}
