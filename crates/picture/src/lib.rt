// The picture of an image, and what painting a band of it answers and leaves: definitions and theorems. The code that paints is in the crates after this one.
#![tactic(auto)]
