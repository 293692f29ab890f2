// Home: the bytes of a layout, soundness and lookup.
#![tactic(auto)]

pub mod buildings;
pub mod lookup;

// Where the record area begins in home.
pub const AREA: usize = 1664;
