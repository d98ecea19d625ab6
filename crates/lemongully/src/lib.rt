#![tactic(auto)]
// The C interface of all layers, one file for each: `rt lib` makes out/liblemongully.a, the archive
// that a supplier links. Numbers of refusals are 01's.
mod numbers;
pub mod of_float;
pub mod of_page;
pub mod of_polynomial;
pub mod of_sheet;
