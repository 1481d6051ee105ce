// Bytes and scalar values: what every reader of a sheet stands on.
// Document 01, "The grammar", Bytes.
#![tactic(auto)]

pub mod classes;
pub mod nesting;
pub mod parts;
pub mod runs;
pub mod utf8;
