// The words of a sheet's text: what stands on a line, and the names that it may have.
#![tactic(auto)]

pub mod names;
pub mod token;
