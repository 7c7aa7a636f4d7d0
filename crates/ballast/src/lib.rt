// The call that takes a case and a result buffer and leaves the record.
#![tactic(auto)]

ghost use Rattle.judge.specs.Equations.{system_of};
ghost use Rattle.solver.specs.Limits.{Limits};
ghost use Rattle.solver.specs.Solution.{solution_from, SolutionIs};
ghost use Rattle.casefile.specs.Decode.{decode};
ghost use Rattle.ballast.specs.Call.{condition_solution, answer_from, answer_of, AnswerIs};
ghost use Rattle.ballast.specs.Demand.{Promise};

use casefile::NO_FIGURES;
use judge::{Equations, MeasuredTrial, RightHandSide, ZERO_TRIAL};
use outcome::Refusal;
use solver::{Kept, Unsolved, solve};

// What a file's case comes to, but for its trial, residuals and reaches: n, the exponent, and what is said of the kept answer, or the refusal.
// n and the exponent stand beside refusal 8 and 9 too; beside one of the reading they are 0.
#[derive(Clone, Copy, Debug, PartialEq, Eq)]
pub struct Answered {
    pub n: usize,
    pub exponent: usize,
    pub kept: Result<Kept, Unsolved>,
}

// The answer of one condition, judged, or refusal 8 or 9: for K = 0 the trial that stands there, otherwise the one that is kept from the steps. The
// trial gets the answer and what it leaves of each row.
fn answer_condition(
    equations: &Equations,
    rounds: usize,
    trial: &mut MeasuredTrial,
) -> Result<Kept, Unsolved>
    requires { Limits equations.now.n equations.now.scale }
    ensures { SolutionIs (solution_from result trial.new) (condition_solution (system_of equations.now) equations.now.scale rounds trial.old.figures) }
{
    if rounds != 0 {
        return solve(equations, rounds, trial);
    }
    let conclusion = equations.judge(trial);
    Ok(Kept {
        rounds: 0,
        conclusion,
    })
}

// The answer of any bytes as a case, judged: the first refusal of 2 to 9, or the answer with its judgement. Whatever the trial held, it gets the answer
// and what that leaves of each row; zeros after a refusal of the reading, and after 8 or 9 what the steps leave (`solver::solve`). It writes no record.
pub fn answer_case(input: &[u8], trial: &mut MeasuredTrial) -> Answered
    ensures { AnswerIs (answer_from result trial.new) (answer_of (decode input.now)) }
{
    *trial = ZERO_TRIAL;
    let mut figures = NO_FIGURES;
    match case_reader::read_case(input, &mut figures) {
        Ok(head) => {
            trial.figures = figures.trial;
            let equations = Equations {
                n: head.n,
                scale: integers::power_of_ten(head.exponent),
                coefficients: &figures.coefficients,
                tolerances: &figures.tolerances,
                right_hand_side: RightHandSide {
                    values: figures.right_sides,
                    tolerances: figures.right_tolerances,
                },
            };
            Answered {
                n: head.n,
                exponent: head.exponent,
                kept: answer_condition(&equations, head.rounds, trial),
            }
        }
        Err(refusal) => Answered {
            n: 0,
            exponent: 0,
            kept: Err(Unsolved { refusal, rounds: 0 }),
        },
    }
}

// Judges a case: any bytes as input, and a result buffer of any length. It returns the record's length, with the record at the buffer's front and
// the bytes beyond it as they were; or the first refusal in document 01's order, with the buffer unchanged.
pub fn judge_case(input: &[u8], out: &mut [u8]) -> Result<usize, Refusal>
    ensures { Promise input.now out.old result out.new }
{
    if out.len() < recordfile::LONGEST_RECORD {
        return Err(Refusal::BufferTooShort);
    }
    let mut trial = ZERO_TRIAL;
    let answer = answer_case(input, &mut trial);
    let kept = answer.kept?;
    Ok(recordfile::write_record(answer.n, kept.rounds, kept.conclusion, &trial, out))
}
