// Mixing: a row of channels brought to another number of channels, and one row added to another.
#![tactic(auto)]

pub mod add;
pub mod frame;
pub mod mix;
mod mixdown;
mod moves;
