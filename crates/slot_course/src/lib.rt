// A slot on the table of a sound state, put together of its steps.
#![tactic(auto)]

pub mod phase;
pub mod slot;
