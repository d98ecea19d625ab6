#![tactic(auto)]
// Requests and sheets, document 01's module 7. specs/Lib.antt says which files define what.
pub mod angles;
pub mod bytes;
pub mod check;
pub mod edition;
pub mod fields;
pub mod plan;
pub mod refusals;
pub mod request;
pub mod sample;
pub mod trailer;
pub mod twice;
pub mod validate;
pub mod view;
