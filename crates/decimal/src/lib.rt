// Words and decimal numbers as bytes. A `TextWriter` writes them into a buffer that it was lent and changes nothing else there; `read_digits` reads digits
// back.
#![tactic(auto)]

ghost use Rattle.std.specs.Prelude.{◌≤◌, length, ◌≡◌};
ghost use Rattle.limits.specs.Limits.{most_exponent};
ghost use Rattle.decimal.specs.Decimal.{decimal_digits, last_digits, minus_sign, signed_decimal, fraction, fixed_point};
ghost use Rattle.decimal.specs.Reading.{most_digits, DigitsRead};
ghost use Rattle.decimal.specs.Writing.{HasRoom, Writes};

use integers::{magnitude, power_of_ten};

// How many digits x has; 0 has one.
fn digit_count(x: u64) -> usize
    ensures { result ≡ length (decimal_digits x) }
{
    x.max(1).ilog10() as usize + 1
}

// Fills a part of a buffer with the last digits of x, with leading zeros, from the last one back.
fn fill_digits(x: u64, part: &mut [u8])
    ensures { part.new ≡ last_digits (length part.old) x }
{
    let mut rest = x;
    for i in (0..part.len()).rev() {
        part[i] = b'0' + (rest % 10) as u8;
        rest /= 10;
    }
}

// Writes text into the buffer `out` that it was lent, from the place `at` on, which is then behind what it wrote. It can be no copy, since it lends on.
// The numbers are written digit by digit: the bytes of a `write!` are known of a `String` alone, and that needs memory.
#[derive(Drop)]
pub struct TextWriter<'a> {
    pub out: &'a mut [u8],
    pub at: usize,
}

impl<'a> TextWriter<'a> {
    // Copies the bytes of a word.
    pub fn bytes(&mut self, word: &[u8])
        requires { HasRoom word.now self.old }
        ensures { Writes word.now self.old self.new }
    {
        let end = self.at + word.len();
        self.out[self.at..end].copy_from_slice(word);
        self.at = end;
    }

    // The last digits of x, as many as `count` says, with leading zeros.
    #[tactic(auto, using(crate::proofs::DigitLaws::length_last_digits))]
    fn last_digits(&mut self, x: u64, count: usize)
        requires { HasRoom (last_digits count x) self.old }
        ensures { Writes (last_digits count x) self.old self.new }
    {
        let end = self.at + count;
        fill_digits(x, &mut self.out[self.at..end]);
        self.at = end;
    }

    // A whole number without leading zeros.
    pub fn unsigned(&mut self, x: u64)
        requires { HasRoom (decimal_digits x) self.old }
        ensures { Writes (decimal_digits x) self.old self.new }
    {
        self.last_digits(x, digit_count(x));
    }

    // A minus, where x is below zero.
    fn minus(&mut self, x: i64)
        requires { HasRoom (minus_sign x) self.old }
        ensures { Writes (minus_sign x) self.old self.new }
    {
        if x < 0 {
            self.bytes(b"-");
        }
    }

    // A whole number of either sign.
    pub fn signed(&mut self, x: i64)
        requires { HasRoom (signed_decimal x) self.old }
        ensures { Writes (signed_decimal x) self.old self.new }
    {
        self.minus(x);
        self.unsigned(magnitude(x));
    }

    // A point and e digits, or nothing where e is 0.
    fn fraction(&mut self, x: u64, e: usize)
        requires { HasRoom (fraction e x) self.old }
        ensures { Writes (fraction e x) self.old self.new }
    {
        if e != 0 {
            self.bytes(b".");
            self.last_digits(x, e);
        }
    }

    // x / 10^e: its sign, the whole part, and for e above 0 a point and e digits. e stays a number here: a file brings it as one.
    pub fn fixed_point(&mut self, x: i64, e: usize)
        requires { (e ≤ most_exponent) × HasRoom (fixed_point e x) self.old }
        ensures { Writes (fixed_point e x) self.old self.new }
    {
        let size = magnitude(x);
        let unit = power_of_ten(e) as u64;
        self.minus(x);
        self.unsigned(size / unit);
        self.fraction(size % unit, e);
    }
}

// How many digits were read, and their number.
#[derive(Clone, Copy, Debug, PartialEq, Eq)]
pub struct Digits {
    pub count: usize,
    pub value: u64,
}

// Reads the digits at the front of the text, at most `most` of them; 64 bits hold any number of 19. The library's `parse` takes a whole text,
// and here other bytes follow.
pub fn read_digits(text: &[u8], most: usize) -> Digits
    requires { most ≤ most_digits }
    ensures { DigitsRead most text.now result }
{
    let front = &text[..most.min(text.len())];
    let mut value = 0;
    for (count, byte) in front.iter().enumerate() {
        if !byte.is_ascii_digit() {
            return Digits { count, value };
        }
        value = value * 10 + (*byte - b'0') as u64;
    }
    Digits {
        count: front.len(),
        value,
    }
}
