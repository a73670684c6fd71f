// When a node may be freed, and a node freed.
ghost use Rattle.std.specs.Prelude.{◌≡◌, ◌≤◌};
ghost use Rattle.layout.specs.Sizes.{edge_room};
ghost use Rattle.layout.specs.Header.{edge_count};
ghost use Rattle.pool.specs.Rows.{Held};
ghost use Rattle.nodes.specs.Nodes.{has_edges, can_free, ports_empty, node_freed};
ghost use Rattle.nodes.specs.Kept.{Freed};

use crate::edges::{clear_into, clear_out};
use layout::edge::Edge;
use layout::field::{Flag, Number};
use layout::index::{Below, Id};
use layout::row::{Side, of};
use layout::{PORTS, Words};
use pool::row;

// Whether a node has an edge, hidden or not.
#[tactic(auto, using(crate::proofs::Emptying::seeking))]
fn has_edges(state: &Words, id: Id) -> bool
    requires { edge_count state.now ≤ edge_room }
    ensures { result ≡ has_edges state.now id.index }
{
    for e in 0..Number::EdgeCount.get(state) {
        if Edge::read(state, Below { index: e }).source == id.index {
            return true;
        }
    }
    false
}

/// Whether a node that finished without fault may be freed.
#[tactic(auto, unfolding(crate::specs::Nodes::can_free))]
pub fn can_free(state: &Words, id: Id, tail: bool) -> bool
    requires few { edge_count state.now ≤ edge_room }
    ensures { result ≡ can_free state.now id.index tail }
{
    let none = !has_edges(state, id);
    let unfed = !Flag::HasInputs(id).get(state);
    let plain = !Flag::SideEffects(id).get(state);
    Flag::Dropped(id).get(state) && ((unfed && (!tail || none)) || (plain && none))
}

// All ports of a node release their slots.
#[tactic(auto, using(crate::proofs::Emptying::emptying))]
fn empty_ports(state: &mut Words, id: Id)
    requires { Held state.old }
    ensures { state.new ≡ ports_empty id.index state.old PORTS 0 }
{
    for port in 0..PORTS {
        row::truncate(state, of(id, Side::Input, port), 0);
        row::truncate(state, of(id, Side::Output, port), 0);
    }
}

/// Frees a node: it releases its slots and loses its edges, and those into it go. The order and the muted list stay.
#[tactic(auto, using(crate::proofs::Freed::freeing_node), unfolding(crate::specs::Nodes::node_freed))]
pub fn free(state: &mut Words, id: Id)
    requires held { Held state.old }
    requires few { edge_count state.old ≤ edge_room }
    ensures frees { state.new ≡ node_freed state.old id.index }
    ensures freed { Freed state.old state.new id.index }
{
    empty_ports(state, id);
    clear_out(state, id);
    clear_into(state, id);
    Flag::Present(id).set(state, false);
}
