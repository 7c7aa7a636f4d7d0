// The order of two fractions, with no product formed.
#![tactic(auto)]

ghost use Rattle.std.specs.Prelude.{◌⊎◌, ◌≡◌};
ghost use Rattle.fractions.specs.Fraction.{◌over◌, order};
ghost use Rattle.fractions.specs.Greatest.{is_greater_order};

use std::cmp::Ordering;

// Numerators and denominators are four numbers and no struct of two: `compare` exchanges them at each turn.

// The order where a denominator is zero: 0 / 0 is zero, and anything else over 0 is above every fraction.
fn compare_zero(a: u64, b: u64, c: u64, d: u64) -> Ordering
    requires { (b ≡ 0) ⊎ (d ≡ 0) }
    ensures { result ≡ order (a over b) (c over d) }
{
    match (a, b, c, d) {
        (0, _, 0, _) => Ordering::Equal,
        (0, _, _, _) => Ordering::Less,
        (_, _, 0, _) => Ordering::Greater,
        (_, 0, _, 0) => Ordering::Equal,
        (_, 0, _, _) => Ordering::Greater,
        _ => Ordering::Less,
    }
}

// The order of a / b and c / d: by the whole quotients, and then by the remainders turned over. Remainders of zero end the recursion,
// turned over into denominators of zero.
pub fn compare(a: u64, b: u64, c: u64, d: u64) -> Ordering
    ensures { result ≡ order (a over b) (c over d) }
{
    if b == 0 || d == 0 {
        return compare_zero(a, b, c, d);
    }
    match (a / b).cmp(&(c / d)) {
        Ordering::Equal => compare(d, c % d, b, a % b),
        unequal => unequal,
    }
}

// Whether a / b is greater than c / d. Where neither numerator nor denominator speaks against it, no division is needed.
pub fn exceeds(a: u64, b: u64, c: u64, d: u64) -> bool
    ensures { result ≡ is_greater_order (order (a over b) (c over d)) }
{
    if a <= c {
        if d <= b {
            return false;
        }
    } else if b <= d {
        if 0 < b {
            return true;
        }
    }
    compare(a, b, c, d).is_gt()
}
