// The layout: blocks in zones by class, and how they move.
#![tactic(auto)]

pub mod classes;
