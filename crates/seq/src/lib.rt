// Sequences of numbers: whether one rises.
#![tactic(auto)]

mod order;

pub use order::rises;
