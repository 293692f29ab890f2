// Blocks placed and taken out, and all zones laid out afresh, in a sound workspace's bytes, in place.
#![tactic(auto)]

pub mod afresh;
pub mod place;
pub mod take;
