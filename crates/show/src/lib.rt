// Records and day sheets as text for people.
#![tactic(auto)]

pub mod comparison;
pub mod record;
pub mod text;
