// The bytes of a cue store as code: names, places, and whether bytes are a store.
#![tactic(auto)]

pub mod check;
pub mod name;
pub mod older;
pub mod place;
