// A case in arrays and in lent lists; whether n, e and K are within their limits, and whether a list of coefficients has the count due and is
// within them; and the tags, lengths and places of a case's fields in bytes, with how many figures the trial has.
#![tactic(auto)]

ghost use Rattle.std.specs.Prelude.{◌≤◌, ◌≡◌};
ghost use Rattle.limits.specs.Limits.{most_tanks};
ghost use Rattle.casefile.specs.Case.{tanks_are_fine, head_is_fine, square_counted, coefficients_are_fine};
ghost use Rattle.casefile.specs.Layout.{RowPlaced, TailPlaced};

use bigendian::BigEndian;
use limits::{MOST_COEFFICIENTS, MOST_TANKS};

// Document 01, "Layout of case and record".
pub const HEAD_TAG: u8 = 0x01;

pub const ROW_TAG: u8 = 0x02;

pub const TRIAL_TAG: u8 = 0x03;

pub const HEAD_LENGTH: usize = 3;

pub const LONGEST_CASE: usize = 388;

// Where n, the exponent, the rounds and the first row stand.
pub const N_AT: usize = fields::HEADER_SIZE;

pub const EXPONENT_AT: usize = N_AT + 1;

pub const ROUNDS_AT: usize = EXPONENT_AT + 1;

pub const ROWS_AT: usize = fields::HEADER_SIZE + HEAD_LENGTH;

// The figures of a case's head: n, the exponent e and the rounds K.
#[derive(Clone, Copy, Debug, PartialEq, Eq)]
pub struct CaseHead {
    pub n: usize,
    pub exponent: usize,
    pub rounds: usize,
}

// The other figures of a case, in arrays with room for those of any case: coefficients and tolerances row after row, row i from i * n on; the right
// sides, their tolerances and the trial. Lists apart and no list of structs: they are those of document 01 and of every definition here.
#[derive(Clone, Copy, Debug, PartialEq, Eq)]
pub struct CaseFigures {
    pub coefficients: [i16; MOST_COEFFICIENTS],
    pub tolerances: [u16; MOST_COEFFICIENTS],
    pub right_sides: [i32; MOST_TANKS],
    pub right_tolerances: [u32; MOST_TANKS],
    pub trial: [i32; MOST_TANKS],
}

// Zeros everywhere: what is there before a case is read, and beside a refusal.
pub const NO_FIGURES: CaseFigures = CaseFigures {
    coefficients: [0; MOST_COEFFICIENTS],
    tolerances: [0; MOST_COEFFICIENTS],
    right_sides: [0; MOST_TANKS],
    right_tolerances: [0; MOST_TANKS],
    trial: [0; MOST_TANKS],
};

// A case in arrays with zeros behind its figures: only the round trip returns it.
#[derive(Clone, Copy, Debug, PartialEq, Eq)]
pub struct StoredCase {
    pub head: CaseHead,
    pub figures: CaseFigures,
}

// A case as it is handed over to be written: its head, and five lists of any length.
#[derive(Clone, Copy)]
pub struct CaseLists<'a> {
    pub head: CaseHead,
    pub coefficients: &'a [i16],
    pub tolerances: &'a [u16],
    pub right_sides: &'a [i32],
    pub right_tolerances: &'a [u32],
    pub trial: &'a [i32],
}

// The places of a row's parts in its value, and the lengths of value and field, for n tanks.
#[derive(Clone, Copy, Debug, PartialEq, Eq)]
pub struct RowPlaces {
    pub tolerances: usize,
    pub right_side: usize,
    pub right_tolerance: usize,
    pub len: usize,
    pub size: usize,
}

// What follows the rows of n tanks: where the trial's field begins, how many figures the trial has, how long its value is where there is one, and
// where the end field begins.
#[derive(Clone, Copy, Debug, PartialEq, Eq)]
pub struct TailPlaces {
    pub trial: usize,
    pub trial_count: usize,
    pub trial_len: usize,
    pub end: usize,
}

// Whether n is within its limits.
pub fn tanks_fine(n: usize) -> bool
    ensures { result ≡ tanks_are_fine n }
{
    (1 <= n) & (n <= MOST_TANKS)
}

// Whether a list has a coefficient for each of n tanks in each of n rows. What is asked of n stays an inequality here: a type of its own would have to
// be taken apart wherever n counts something.
pub fn coefficients_counted(n: usize, coefficients: &[i16]) -> bool
    requires { n ≤ most_tanks }
    ensures { result ≡ square_counted n coefficients.now }
{
    coefficients.len() == n * n
}

// Whether every coefficient is within its limits.
pub fn coefficients_fine(coefficients: &[i16]) -> bool
    ensures { result ≡ coefficients_are_fine coefficients.now }
{
    figures::all_within(coefficients, limits::COEFFICIENT_LIMIT)
}

// Where a row's tolerances, right side and its tolerance stand in the row's value, each behind the figures before it; how long the value is; and the
// bytes of the row's field, header and value.
pub fn row_places(n: usize) -> RowPlaces
    requires { n ≤ most_tanks }
    ensures { RowPlaced n result }
{
    let tolerances = n * i16::SIZE;
    let right_side = tolerances + n * u16::SIZE;
    let right_tolerance = right_side + i32::SIZE;
    let len = right_tolerance + u32::SIZE;
    RowPlaces {
        tolerances,
        right_side,
        right_tolerance,
        len,
        size: fields::HEADER_SIZE + len,
    }
}

impl CaseHead {
    // Whether n, the exponent and the rounds are within their limits.
    pub fn is_fine(self) -> bool
        ensures { result ≡ head_is_fine self.n self.exponent self.rounds }
    {
        tanks_fine(self.n)
            & ((self.exponent <= limits::MOST_EXPONENT) & (self.rounds <= limits::MOST_ROUNDS))
    }

    // The trial has no figures, and its field no bytes, where K is above 0.
    pub fn tail_places(self) -> TailPlaces
        requires { self.n ≤ most_tanks }
        ensures { TailPlaced self.rounds self.n result }
    {
        let n = self.n;
        let row = row_places(n);
        let trial = ROWS_AT + n * row.size;
        let trial_len = n * i32::SIZE;
        if self.rounds == 0 {
            TailPlaces {
                trial,
                trial_count: n,
                trial_len,
                end: trial + fields::HEADER_SIZE + trial_len,
            }
        } else {
            TailPlaces {
                trial,
                trial_count: 0,
                trial_len,
                end: trial,
            }
        }
    }
}
