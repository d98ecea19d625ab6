#![tactic(auto)]
// What the programs print of sheets and requests, as functions on slices. specs/Listing.antt and specs/Pages.antt
// define the texts.
pub mod check_text;
pub mod make_text;
pub mod pages_text;
pub mod printed;
