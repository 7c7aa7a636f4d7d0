// The limits of a case's figures: document 01, "Figures". A figure is within its limit where its size is at most that; n is also at least 1.
#![tactic(auto)]

pub const MOST_TANKS: usize = 8;

// Rows times tanks.
pub const MOST_COEFFICIENTS: usize = MOST_TANKS * MOST_TANKS;

pub const MOST_EXPONENT: usize = 3;

pub const MOST_ROUNDS: usize = 8;

pub const COEFFICIENT_LIMIT: u64 = 32767;

pub const TOLERANCE_LIMIT: u64 = 32767;

pub const RIGHT_SIDE_LIMIT: u64 = 1000000000;

pub const RIGHT_TOLERANCE_LIMIT: u64 = 1000000000;

pub const TRIAL_LIMIT: u64 = 10000000;
