// Values of every kind, those that hold items among them: reading one whole, and entering its items.
// Document 01, "The grammar", Values; "Entries"; document 02, Five.
#![tactic(auto)]

mod brackets;
pub mod entering;
mod labels;
pub mod reading;
