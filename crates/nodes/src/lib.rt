// The table of nodes by id: nodes added and freed, their settings, and the edges between them.
#![tactic(auto)]

pub mod adding;
pub mod edges;
pub mod freeing;
pub mod settings;
