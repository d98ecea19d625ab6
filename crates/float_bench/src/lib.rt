#![tactic(auto)]
// Loops over the fused product, the square root and the error of a product, for a C or Rust program
// to time: `chain` takes a result as the next operand, `each` works on every place of a slice. The
// plain product and sum are there to compare with.
pub mod chain;
pub mod each;
