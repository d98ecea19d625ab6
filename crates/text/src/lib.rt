// Text that the programs read and print: lines with a number, lines of words, and counts.
#![tactic(auto)]

pub mod decimal;
pub mod input;
pub mod lines;
pub mod report;
