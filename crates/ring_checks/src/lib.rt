// The shape of rings, and the checks of the calls on them.
#![tactic(auto)]

pub mod checks;
pub mod shape;
