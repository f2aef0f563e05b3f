// The fields of a sheet's text: what each record may have, and its value, read off a line and written into the draft.
#![tactic(auto)]

pub mod fault;
pub mod fields;
mod values;

pub use values::read_value;
