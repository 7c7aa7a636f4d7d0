// Rounded division of signed numbers.
#![tactic(auto)]

ghost use Rattle.std.specs.Prelude.{◌<◌, pos, nat_abs, ◌≡◌};
ghost use Rattle.rounding.specs.Half.{last_bit_of, is_rounded_up};
ghost use Rattle.rounding.specs.Round.{near, rnd, Defined};
ghost use Rattle.rounding.specs.Scale.{multiplier_scale};

// The rule for halves, by what is left of the divisor, so that no double wraps.
fn rounds_up(quotient: u64, remainder: u64, divisor: u64) -> bool
    requires { remainder < divisor }
    ensures { result ≡ is_rounded_up quotient remainder divisor }
{
    divisor - remainder < remainder + quotient % 2
}

// The nearest whole number to a / b, of naturals.
fn nearest(a: u64, b: u64) -> u64
    requires { 0 < b }
    ensures { result ≡ near a b }
{
    let q = a / b;
    let r = a % b;
    if rounds_up(q, r, b) { q + 1 } else { q }
}

// rnd(p/q): the nearest whole number to p / q, with either sign of p and q. Asks only that q is not 0 and that the result fits:
// of all others, only the least number over -1 has a result that does not.
pub fn rounded_quotient(p: i64, q: i64) -> i64
    requires { Defined p q }
    ensures { result ≡ rnd p q }
{
    let m = nearest(integers::magnitude(p), integers::magnitude(q));
    if (p < 0) == (q < 0) {
        m as i64
    } else {
        0i64.strict_sub_unsigned(m)
    }
}

// The scale of the multipliers, 2 to the power SCALE_BITS; the mask of the bits that a number has above a multiple of it; one less than its half.
pub const MULTIPLIER_SCALE: u64 = 16384;

const SCALE_BITS: i64 = 14;

const SCALE_MASK: i64 = MULTIPLIER_SCALE as i64 - 1;

const BELOW_HALF: i64 = MULTIPLIER_SCALE as i64 / 2 - 1;

// The last binary digit, on both sides of zero.
fn last_bit(z: i64) -> i64
    ensures { result ≡ pos (last_bit_of (nat_abs z)) }
{
    z & 1
}

// rnd(p / 16,384), by the scale of the multipliers, for any p: p + 8,191 + the last bit of the floor quotient, shifted, is the rule on both sides
// of zero. The multiple of the scale in p stands aside while the remainder is shifted, so that the sum fits also where p is near the largest number.
pub fn rounded_by_scale(p: i64) -> i64
    ensures { result ≡ rnd p (pos multiplier_scale) }
{
    let quotient = p >> SCALE_BITS;
    let remainder = p & SCALE_MASK;
    quotient + ((remainder + BELOW_HALF + last_bit(quotient)) >> SCALE_BITS)
}
