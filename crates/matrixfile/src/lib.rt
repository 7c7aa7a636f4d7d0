// Matrix Market files of coefficients: the text that is written, how a text is read, and the laws of both, in specs/ and proofs/; and in code the first line, the length
// of the longest text and the most digits of an entry.
#![tactic(auto)]

pub const FIRST_LINE: [u8; FIRST_LINE_LENGTH] = *b"%%MatrixMarket matrix array integer general\n";

pub const FIRST_LINE_LENGTH: usize = 44;

pub const LONGEST_TEXT: usize = 496;

pub const MOST_ENTRY_DIGITS: usize = 5;
