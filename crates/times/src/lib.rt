// Times: what stands between the braces of a value, by its kinds.
// Document 02, Two; 001 §18.
#![tactic(auto, unfolding(paper::specs::Bytes::are_digits, paper::specs::Times::digits, paper::specs::Times::two_digits, paper::specs::Times::is_leap, paper::specs::Times::days_of, paper::specs::Times::is_year_month, paper::specs::Times::is_time, paper::specs::Times::is_zone, paper::specs::Times::is_zone_name, paper::specs::Times::is_zone_byte, paper::specs::Times::is_span, paper::specs::Times::is_reserved))]

mod dates;
mod days;
mod durations;
mod fields;
pub mod kinds;
mod moments;
mod parted;
