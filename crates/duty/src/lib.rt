// What the duty board asks of its packet counts and its station names.
#![tactic(auto)]

pub mod area;
pub mod checks;
pub mod file;
pub mod names;
mod output;
pub mod roster;
