// Why a call or a check refuses, the number that the papers give each refusal, and the answer of a check by one test.
#![tactic(auto)]

ghost use Rattle.std.specs.Prelude.{◌≡◌};
ghost use Rattle.outcome.specs.Outcome.{number_of, status_number, check as checked};

// Document 01, "Refused, in this order", and behind them document 02's refusals: of soundings, and of Matrix Market files.
#[derive(Clone, Copy, Debug, PartialEq, Eq)]
pub enum Refusal {
    BufferTooShort,
    FieldMissing,
    WrongTag,
    WrongLength,
    ValueCutShort,
    OutsideLimits,
    TrailingBytes,
    ZeroPivot,
    OutsideRange,
    OutsideTable,
    WrongMatrixHeader,
    WrongMatrixEntry,
}

impl Refusal {
    // Its number.
    pub fn number(self) -> u8
        ensures { result ≡ number_of self }
    {
        match self {
            Refusal::BufferTooShort => 1,
            Refusal::FieldMissing => 2,
            Refusal::WrongTag => 3,
            Refusal::WrongLength => 4,
            Refusal::ValueCutShort => 5,
            Refusal::OutsideLimits => 6,
            Refusal::TrailingBytes => 7,
            Refusal::ZeroPivot => 8,
            Refusal::OutsideRange => 9,
            Refusal::OutsideTable => 10,
            Refusal::WrongMatrixHeader => 11,
            Refusal::WrongMatrixEntry => 12,
        }
    }
}

// The answer of a check by one test: the refusal where it fails.
pub fn check(passed: bool, refusal: Refusal) -> Result<(), Refusal>
    ensures { status_number result ≡ status_number (checked passed refusal) }
{
    if passed { Ok(()) } else { Err(refusal) }
}
