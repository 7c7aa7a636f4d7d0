// The answer of a system of linear equations: one elimination, then rounds of refinement, each trial judged, and the first that is met or the best
// of them kept.
#![tactic(auto)]

ghost use Rattle.std.specs.Prelude.{ℕ, ◌<◌, ◌≤◌, ℤ, pos, replicate, true, false, cond, List, ◌≡◌, Ok};
ghost use Rattle.limits.specs.Limits.{most_tanks};
ghost use Rattle.fractions.specs.Fraction.{◌over◌};
ghost use Rattle.judge.specs.Equations.{system_of};
ghost use Rattle.judge.specs.Judgement.{judgement_from};
ghost use Rattle.judge.specs.System.{system};
ghost use Rattle.judge.specs.declared.MeasuredTrial.{MeasuredTrial};
ghost use Rattle.elimination.specs.Claims.{Permutation};
ghost use Rattle.solver.specs.Limits.{Limits, Ranges, FiguresCorrectable, Updatable, Ready, Startable};
ghost use Rattle.solver.specs.Refinement.{permuted, substituted, update, corrected_from, corrected, nothing_said_yet, progress_from, refused_progress, round as round_of, ended_by, refined, start as start_of};
ghost use Rattle.solver.specs.RankedTrials.{ranked_from, best_from, unranked, replaces as replaces_best, ranked, best_after, best_of_rounds};
ghost use Rattle.solver.specs.Solution.{solution_from, judged_trial, kept_of, solved, solution, SolutionIs};

use elimination::{Eliminated, eliminate};
use fractions::exceeds;
use integers::{magnitude, scaled};
use judge::{Conclusion, Equations, MeasuredTrial, RightHandSide, ZERO_TRIAL};
use limits::{MOST_COEFFICIENTS, MOST_TANKS, TRIAL_LIMIT};
use outcome::Refusal;
use substitution::{backward_pass, forward_pass};

// The figures of the places in `order`, into z; 0 past the n-th. n comes alone, since nothing else of the equations is needed.
fn order_figures(
    n: usize,
    figures: &[i64; MOST_TANKS],
    order: &[usize; MOST_TANKS],
    z: &mut [i64; MOST_TANKS],
)
    requires { (n ≤ most_tanks) × Permutation n order.now }
    ensures { z.new ≡ permuted n order.now figures.now }
{
    *z = [0i64; MOST_TANKS];
    for i in 0..n {
        let p = order[i];
        z[i] = figures[p];
    }
}

// Y gains d, from the first tank on, up to a figure outside its limit, and whether there was none: a bool, since what Y holds is said either way.
fn correct_figures(n: usize, trial: &mut [i32; MOST_TANKS], corrections: &[i64; MOST_TANKS]) -> bool
    requires { FiguresCorrectable n trial.old corrections.now }
    ensures { update result trial.new ≡ corrected_from corrections.now 0 n trial.old }
{
    for j in 0..n {
        let v = (trial[j] as i64) + corrections[j];
        if TRIAL_LIMIT < magnitude(v) {
            return false;
        }
        trial[j] = v as i32;
    }
    true
}

// The figures of the next trial in place of the last one's, from the residuals of that, and whether every figure is within its limit.
fn update_trial(n: usize, eliminated: &Eliminated, trial: &mut MeasuredTrial) -> bool
    requires { Updatable n eliminated.now.working eliminated.now.order trial.old.residuals trial.old.figures }
    ensures figures { update result trial.new.figures ≡ corrected n trial.old.figures (substituted eliminated.now.working (permuted n eliminated.now.order trial.old.residuals) n) }
    ensures residuals { trial.new.residuals ≡ trial.old.residuals }
    ensures reaches { trial.new.reaches ≡ trial.old.reaches }
{
    let mut z = [0i64; MOST_TANKS];
    order_figures(n, &trial.residuals, &eliminated.order, &mut z);
    forward_pass(&eliminated.working, &mut z, n);
    let mut d = [0i64; MOST_TANKS];
    backward_pass(&eliminated.working, &z, n, &mut d) && correct_figures(n, &mut trial.figures, &d)
}

// The ranges of the figures' types, which the proofs of the rounds need: known of arrays by value, and not of those behind a reference. It does nothing.
fn type_ranges(coefficients: [i16; MOST_COEFFICIENTS], right_hand_side: RightHandSide)
    ensures { Ranges coefficients right_hand_side.values }
{}

// What is said of the start, of which nothing is known.
fn nothing_said() -> Conclusion
    ensures { (R : List ℤ) (T : List ℕ) → judgement_from result R T ≡ nothing_said_yet R T }
{
    Conclusion {
        met: false,
        unmet: 0,
        none: false,
        decides: 0,
    }
}

// What is kept of the best trial so far: whether it is the last one, what is said of it, and the factor of the row that decides, as a fraction, by which
// trials are ranked. Its figures, residuals and reaches are those of the last trial where it is that one, and otherwise stand by themselves: a flag
// and no Option, which would hold a copy of the trial after every round, and nothing where no trial is ranked yet, as `unranked` has it.
#[derive(Clone, Copy, Debug, PartialEq, Eq)]
pub struct BestTrial {
    pub last: bool,
    pub conclusion: Conclusion,
    pub numerator: u64,
    pub denominator: u64,
}

impl BestTrial {
    // Whether one more trial replaces it, after so many others: where that is the first, or where its own factor exceeds that one's.
    fn replaced(self, others: usize, numerator: u64, denominator: u64) -> bool
        ensures { result ≡ replaces_best others (self.numerator over self.denominator) (numerator over denominator) }
    {
        others == 0 || exceeds(self.numerator, self.denominator, numerator, denominator)
    }

    // It where it is not the last: it stands by itself.
    fn stored(self) -> BestTrial
        ensures { (result.last ≡ false) × ((t : MeasuredTrial) → ranked_from result t ≡ ranked_from self t) }
    {
        BestTrial {
            last: false,
            ..self
        }
    }

    // The best trial after one more, behind so many others. Only an unmet one is ranked; a met one ends the work.
    fn rank(self, others: usize, conclusion: Conclusion, trial: &MeasuredTrial) -> BestTrial
        requires { (1 ≤ conclusion.decides) × (conclusion.decides ≤ most_tanks) }
        ensures { (b : MeasuredTrial) → best_from result trial.now b ≡ ranked others (ranked_from self b) trial.now.figures (judgement_from conclusion trial.now.residuals trial.now.reaches) }
    {
        if conclusion.met {
            return self.stored();
        }
        let at = conclusion.decides - 1;
        let numerator = magnitude(trial.residuals[at]);
        let denominator = trial.reaches[at];
        if self.replaced(others, numerator, denominator) {
            BestTrial {
                last: true,
                conclusion,
                numerator,
                denominator,
            }
        } else {
            self.stored()
        }
    }
}

// If so, one trial in the place of another. A function of its own, so that what `round` leaves is said of one path.
fn copy_trial_if(copied: bool, trial: &MeasuredTrial, to: &mut MeasuredTrial)
    ensures { to.new ≡ cond copied trial.now to.old }
{
    if copied {
        *to = *trial;
    }
}

// What is said of the rounds so far, beside the last trial and beside the best: whether the last round stayed within its limits, how many there were,
// what is said of the trial, and of the best of them. Where no round was made nothing is said. After refusal 9 it is as before that round;
// `ended` and `keep` promise their answer for such a state too, so `within` is a flag beside what is said, and no error in its place.
#[derive(Clone, Copy, Debug, PartialEq, Eq)]
pub struct RefinementState {
    pub within: bool,
    pub rounds: usize,
    pub conclusion: Conclusion,
    pub best: BestTrial,
}

// The trial to start from, which is zero, beside its residuals, which are D × b; its reaches are not formed and stand as zeros. No trial is the best.
pub fn start(equations: &Equations, trial: &mut MeasuredTrial) -> RefinementState
    ensures progress { (A : List ℤ) (E : List ℕ) → progress_from result trial.new ≡ start_of (system equations.now.n A E equations.now.right_hand_side.values equations.now.right_hand_side.tolerances) equations.now.scale }
    ensures best { (result.best.last ≡ false) × ((t : MeasuredTrial) → ranked_from result.best t ≡ unranked t) }
{
    *trial = ZERO_TRIAL;
    for i in 0..equations.n {
        trial.residuals[i] = scaled(equations.scale, equations.right_hand_side.values[i]);
    }
    let conclusion = nothing_said();
    let best = BestTrial {
        last: false,
        conclusion,
        numerator: 0,
        denominator: 0,
    };
    RefinementState {
        within: true,
        rounds: 0,
        conclusion,
        best,
    }
}

impl RefinementState {
    // The state after a round that left its limits: as before it, with the best trial by itself.
    fn refused_round(self) -> RefinementState
        ensures progress { (t : MeasuredTrial) → progress_from result t ≡ refused_progress (progress_from self t) t.figures }
        ensures best { (result.best.last ≡ false) × ((t : MeasuredTrial) → ranked_from result.best t ≡ ranked_from self.best t) }
    {
        RefinementState {
            within: false,
            best: self.best.stored(),
            ..self
        }
    }

    // One round: the next trial in place of the last, judged, and ranked where it is unmet; or refusal 9, where residuals, reaches and the best trial stay
    // as they are and the trial is as far as it was formed. Where the last trial is the best, it is stored first.
    pub fn round(
        self,
        equations: &Equations,
        eliminated: &Eliminated,
        trial: &mut MeasuredTrial,
        best: &mut MeasuredTrial,
    ) -> RefinementState
        requires { Ready eliminated.now.working eliminated.now.order (system_of equations.now) equations.now.scale (progress_from self trial.old) }
        ensures progress { progress_from result trial.new ≡ round_of eliminated.now.working eliminated.now.order (system_of equations.now) equations.now.scale (progress_from self trial.old) }
        ensures best { best_from result.best trial.new best.new ≡ best_after self.rounds (best_from self.best trial.old best.old) (progress_from result trial.new) }
        ensures stored { best.new ≡ cond self.best.last trial.old best.old }
    {
        type_ranges(*equations.coefficients, equations.right_hand_side);
        copy_trial_if(self.best.last, trial, best);
        if update_trial(equations.n, eliminated, trial) {
            let unmet = equations.measure(trial);
            let conclusion = trial.conclude(equations.n, unmet);
            let best = self.best.rank(self.rounds, conclusion, trial);
            RefinementState {
                within: true,
                rounds: self.rounds + 1,
                conclusion,
                best,
            }
        } else {
            self.refused_round()
        }
    }

    // Whether the work ends here: the trial is met, or refusal 9. The start ends nothing.
    pub fn ended(self) -> bool
        ensures { result ≡ ended_by self.within self.conclusion.met }
    {
        !self.within || self.conclusion.met
    }

    // What is kept after the last round: its trial where that is met, and otherwise the best, which takes the place of the last where it is another.
    // Nothing is judged again.
    pub fn keep(self, best: &MeasuredTrial, trial: &mut MeasuredTrial) -> Result<Kept, Unsolved>
        ensures { SolutionIs (solution_from result trial.new) (kept_of (progress_from self trial.old) (best_from self.best trial.old best.now)) }
    {
        let rounds = self.rounds;
        if !self.within {
            return Err(Unsolved {
                refusal: Refusal::OutsideRange,
                rounds,
            });
        }
        let mut conclusion = self.conclusion;
        if !conclusion.met {
            copy_trial_if(!self.best.last, best, trial);
            conclusion = self.best.conclusion;
        }
        Ok(Kept { rounds, conclusion })
    }
}

// From the start, rounds until one is met, or refused, or `rounds` of them are done; where none is met, with the best of their trials. Equations,
// elimination and trial stay three: several right-hand sides are to have one elimination, and a trial is its caller's.
fn refine(
    equations: &Equations,
    eliminated: &Eliminated,
    rounds: usize,
    trial: &mut MeasuredTrial,
    best: &mut MeasuredTrial,
) -> RefinementState
    requires { Startable eliminated.now.working eliminated.now.order equations.now.n equations.now.scale }
    ensures progress { progress_from result trial.new ≡ refined eliminated.now.working eliminated.now.order (system_of equations.now) equations.now.scale rounds (start_of (system_of equations.now) equations.now.scale) }
    ensures best { 0 < rounds → result.within ≡ true → result.conclusion.met ≡ false → best_from result.best trial.new best.new ≡ best_of_rounds eliminated.now.working eliminated.now.order (system_of equations.now) equations.now.scale rounds }
{
    let mut state = start(equations, trial);
    for _ in 0..rounds {
        state = state.round(equations, eliminated, trial, best);
        if state.ended() {
            return state;
        }
    }
    state
}

// An answer: the rounds used, and what is said of the kept trial.
#[derive(Clone, Copy, Debug, PartialEq, Eq)]
pub struct Kept {
    pub rounds: usize,
    pub conclusion: Conclusion,
}

// Why there is no answer: no pivot at some step (8), a correction or a figure outside its limits (9), or what the caller refused before; and the
// rounds made. Nothing is said, whatever trial, residuals and reaches stand there.
#[derive(Clone, Copy, Debug, PartialEq, Eq)]
pub struct Unsolved {
    pub refusal: Refusal,
    pub rounds: usize,
}

// A caller that has no use for the rounds hands the refusal on by `?`.
impl From<Unsolved> for Refusal {
    ghost from_gives = { λ u r. r ≡ u.refusal };

    fn from(unsolved: Unsolved) -> Refusal
        ensures { result ≡ unsolved.refusal }
    {
        unsolved.refusal
    }
}

// The answer where no round is allowed: zero, judged.
fn zero_answer(equations: &Equations, trial: &mut MeasuredTrial) -> Kept
    ensures { SolutionIs (solution_from (Ok result) trial.new) (judged_trial (system_of equations.now) equations.now.scale 0 (replicate most_tanks (pos 0))) }
{
    trial.figures = [0i32; MOST_TANKS];
    let conclusion = equations.judge(trial);
    Kept {
        rounds: 0,
        conclusion,
    }
}

// The answer over one complete elimination, in at most `rounds` rounds, or refusal 9. With no round allowed it is the zero trial, judged. After refusal
// 9 the trial is as far as it was formed, beside the residuals and reaches that stood before that round.
pub fn solve_eliminated(
    equations: &Equations,
    eliminated: &Eliminated,
    rounds: usize,
    trial: &mut MeasuredTrial,
) -> Result<Kept, Unsolved>
    requires { Startable eliminated.now.working eliminated.now.order equations.now.n equations.now.scale }
    ensures { SolutionIs (solution_from result trial.new) (solved eliminated.now.working eliminated.now.order (system_of equations.now) equations.now.scale rounds) }
{
    if rounds == 0 {
        return Ok(zero_answer(equations, trial));
    }
    // no trial is the best before the first round, so anything may stand in its place
    let mut best = *trial;
    let state = refine(equations, eliminated, rounds, trial, &mut best);
    state.keep(&best, trial)
}

// The answer of n rows over n tanks in at most `rounds` rounds, or the refusal that the steps reach. With no round allowed the answer is zero, unless
// some step has no pivot. After refusal 8 the trial is the start: zeros, D × b, zeros; after 9, as far as it was formed, beside the residuals and
// reaches that stood before that round.
pub fn solve(
    equations: &Equations,
    rounds: usize,
    trial: &mut MeasuredTrial,
) -> Result<Kept, Unsolved>
    requires { Limits equations.now.n equations.now.scale }
    ensures { SolutionIs (solution_from result trial.new) (solution (system_of equations.now) equations.now.scale rounds) }
{
    type_ranges(*equations.coefficients, equations.right_hand_side);
    let mut eliminated = Eliminated {
        working: [[0i64; MOST_TANKS]; MOST_TANKS],
        order: [0usize; MOST_TANKS],
    };
    match eliminate(equations.n, equations.coefficients, &mut eliminated) {
        Ok(()) => solve_eliminated(equations, &eliminated, rounds, trial),
        Err(_) => {
            start(equations, trial);
            Err(Unsolved {
                refusal: Refusal::ZeroPivot,
                rounds: 0,
            })
        }
    }
}
