#![tactic(auto)]
// The float floor of document 01: its modules 1 and 2. specs/Lib.antt says which files define what.
pub mod arc;
pub mod mul_add;
pub mod number;
pub mod product_error;
mod remainder;
pub mod sqrt;
pub mod trig;
pub mod wide;
