// Laws of whole numbers, in specs/ and proofs/, and in code the absolute value, the powers of ten that an exponent of a case asks, and what they scale.
#![tactic(auto)]

ghost use Rattle.std.specs.Prelude.{◌^◌, ◌<◌, ◌≤◌, pos, nat_abs, ◌*ℤ◌, ◌≡◌};

// The absolute value of any number, the least one too.
pub fn magnitude(x: i64) -> u64
    ensures { result ≡ nat_abs x }
{
    x.unsigned_abs()
}

// A table, which is read faster than a power is formed.
const POWERS_OF_TEN: [u16; 4] = [1, 10, 100, 1000];

// 10 to the power e.
pub fn power_of_ten(e: usize) -> u16
    requires { e < 4 }
    ensures { result ≡ 10 ^ e }
{
    POWERS_OF_TEN[e]
}

// D times a figure.
pub fn scaled(scale: u16, figure: i32) -> i64
    ensures { (result ≡ pos scale *ℤ figure) × (nat_abs result ≤ 2 ^ 47) }
{
    i64::from(scale) * i64::from(figure)
}
