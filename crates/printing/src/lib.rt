// The tree of a sheet on a page, by its entries: values, markers, annotations, Content and Concepts.
// Document 01, "Canonical form".
#![tactic(auto)]

pub mod concepts;
mod content;
mod items;
mod laid;
mod markers;
mod notes;
