// Digits, written into lent slices: hexadecimal, decimal, in columns.
#![tactic(auto)]

pub mod based;
pub mod decimal;
pub mod hex;
