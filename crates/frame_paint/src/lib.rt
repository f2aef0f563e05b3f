// Subgraphs and placed labels, painted in a window of rows.
#![tactic(auto)]

pub mod labels;
pub mod subgraphs;
