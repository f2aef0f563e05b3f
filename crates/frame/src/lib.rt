// Subgraphs and nodes: how they look, and which rows of a window they touch.
#![tactic(auto)]

pub mod frames;
pub mod nodes;
pub mod subgraphs;

// How a node looks.
#[derive(Clone, Copy)]
pub enum Look {
    // a dummy that is not shown: nothing
    Hidden,
    // a dummy that is shown: its marker and nothing else
    Dummy,
    // a box of strokes with the label's fitting part in it
    Box,
    // the label between brackets, on the node's first row
    Simple,
    // nothing but its self-loop
    Blank,
}
