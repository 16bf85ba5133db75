#![tactic(auto)]

// The bytes of texts and listings: numbers are read by `scanner` and written by `decimals`.
pub mod decimals;
pub mod scanner;

// A run of bytes in a text: a number, or none.
pub type Token = Option<i64>;

// The most digits of a number.
pub const MAX_DIGITS: usize = 10;
