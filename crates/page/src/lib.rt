#![tactic(auto)]
// Pages of angles as text. specs/Lib.antt says which files define what.
pub mod decimal;
pub mod lines;
pub mod page;
pub mod refusals;
