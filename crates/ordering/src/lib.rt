// The render order: depth-first passes along the stored edges, loops opened at a breaker or muted.
#![tactic(auto)]

mod list;
mod order;
mod pass;
mod walk;

pub use order::order_nodes;
