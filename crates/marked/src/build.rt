// A graph built by edits on a state that begins with one channel a port and 1,024 slots, and ordered.
ghost use Rattle.std.specs.Prelude.{◌≡◌, ◌≤◌, true, replicate};
ghost use Rattle.layout.specs.Sizes.{id_room, state_length};
ghost use Rattle.ordering.specs.View.{Bounded};
ghost use Rattle.marked.specs.Ready.{Ready};

use layout::edge::Edge;
use layout::field::{Flag, Number};
use layout::index::{Below, Id};
use layout::{EDGES, IDS, SLOTS, Words};
use nodes::adding::add_node;
use nodes::edges::add_edge;
use nodes::settings::mark_breaker;
use ordering::order_nodes;

/// The state of a set-up with no nodes, out of zeros.
pub fn begin(state: &mut Words)
    requires { state.old ≡ replicate state_length 0 }
    ensures { Ready state.new 0 }
{
    Number::Ceiling.set(state, 1);
    Number::Slots.set(state, SLOTS);
}

/// Adds nodes 0, 1, .., each with one input and one output.
#[tactic(auto, using(crate::proofs::Begun::addable, crate::proofs::Begun::ready_next))]
pub fn add_nodes(state: &mut Words, count: usize)
    requires ready { Ready state.old 0 }
    requires few { count ≤ id_room }
    ensures { Ready state.new count }
{
    for index in 0..count {
        add_node(state, Below { index }, 1, 1, false);
    }
}

/// Marks some nodes as breakers.
pub fn mark_breakers(state: &mut Words, breakers: &[u8]) {
    for breaker in breakers {
        if let Ok(id) = Id::try_from(usize::from(*breaker)) {
            mark_breaker(state, id);
        }
    }
}

/// Adds edges, each from the first output of a node to the first input of another, while there is room.
pub fn add_edges(state: &mut Words, edges: &[(u8, u8)]) {
    for edge in edges {
        let (source, target) = *edge;
        if Number::EdgeCount.get(state) < EDGES {
            add_edge(
                state,
                Edge {
                    source: usize::from(source),
                    output: 0,
                    target: usize::from(target),
                    input: 0,
                },
            );
        }
    }
}

// Whether the stored edges are in their room and each ends at an id below the bound.
fn is_bounded(state: &Words) -> bool
    ensures { result ≡ true → Bounded state.now }
{
    let count = Number::EdgeCount.get(state);
    if count > EDGES {
        return false;
    }
    for e in 0..count {
        if Edge::read(state, Below { index: e }).target >= IDS {
            return false;
        }
    }
    true
}

/// Orders the nodes if the order is to be made anew; the answer is how many passes there were.
pub fn order(state: &mut Words) -> usize {
    if Flag::Dirty.get(state) {
        if is_bounded(state) {
            return order_nodes(state);
        }
    }
    0
}
