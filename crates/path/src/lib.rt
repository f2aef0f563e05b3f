// The way of an edge: the rows of a window that its pieces touch, its runs there, and whether one of its corners lies below 0.
#![tactic(auto)]

pub mod below;
pub mod legs;
pub mod reach;
