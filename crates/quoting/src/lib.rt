// Bytes put on a page, and values that hold no items: strings quoted anew, white space collapsed, lower case.
// Document 01, "Canonical form".
#![tactic(auto)]

mod backticks;
pub mod leaf;
pub mod page;
mod quoted;
pub mod spaced;
pub mod spans;
