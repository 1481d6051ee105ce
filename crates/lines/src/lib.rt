// Lines of a sheet: what stands on them outside markers, blank lines, annotations and Content.
// Document 01, "The grammar", Names, Lines, Annotations and Content.
#![tactic(auto)]

pub mod annotations;
pub mod blank;
pub mod content;
pub mod marks;
pub mod part;
