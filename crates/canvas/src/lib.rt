// Ink on lent cells.
#![tactic(auto)]

pub mod packed;
pub mod row;
