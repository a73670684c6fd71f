// Rows of channels and the slots that they name: a pool of slots of samples, shared, each with a count of its holders.
#![tactic(auto)]

pub mod adding;
pub mod place;
pub mod row;
pub mod samples;
pub mod slot;
