// Edges added and removed; those that are left keep their stored order.
ghost use Rattle.std.specs.Prelude.{◌≡◌, ◌<◌, ◌≤◌, ◌==◌, ◌++◌, [], ◌∷◌, true, not, if◌then◌else◌, filter};
ghost use Rattle.layout.specs.Sizes.{edge_room};
ghost use Rattle.layout.specs.Header.{is_dirty, muted_length, edge_count};
ghost use Rattle.layout.specs.Edge.{edge_at, set_edge_at, Narrow};
ghost use Rattle.layout.specs.Views.{edges_of};
ghost use Rattle.pool.specs.Rows.{Held};
ghost use Rattle.nodes.specs.Edges.{edge_added, is_edge, takes, edges_left, dirty_if_muted, edge_removed, out_cleared, into_cleared};
ghost use Rattle.nodes.specs.Kept.{ButEdges};

use layout::Words;
use layout::edge::Edge;
use layout::field::{Flag, Number};
use layout::index::{Below, EdgePlace, Id};

// Which edges go.
#[derive(Clone, Copy)]
enum Gone {
    /// Those that are equal to an edge.
    Equal(Edge),
    /// Those that leave a node.
    From(Id),
    /// Those that enter a node.
    Into(Id),
}

impl Gone {
    #[tactic(auto, unfolding(crate::specs::Edges::takes))]
    fn takes(self, edge: Edge) -> bool
        ensures { result ≡ takes self edge }
    {
        match self {
            Gone::Equal(other) => edge == other,
            Gone::From(id) => edge.source == id.index,
            Gone::Into(id) => edge.target == id.index,
        }
    }
}

/// Stores an edge after all others; the order is to be made anew.
#[tactic(auto, using(crate::proofs::EdgeLaws::adding_edge), unfolding(crate::specs::Edges::edge_added))]
pub fn add_edge(state: &mut Words, edge: Edge)
    requires room { edge_count state.old < edge_room }
    requires narrow { Narrow edge }
    ensures adds { state.new ≡ edge_added state.old edge }
    ensures edges { edges_of state.new ≡ edges_of state.old ++ edge ∷ [] }
    ensures dirty { is_dirty state.new ≡ true }
    ensures rest { ButEdges state.old state.new }
    ensures held { Held state.old → Held state.new }
{
    let count = Number::EdgeCount.get(state);
    edge.write(state, Below { index: count });
    Number::EdgeCount.set(state, count + 1);
    Flag::Dirty.set(state, true);
}

// Stores the edge of one place at another.
fn move_edge(state: &mut Words, from: EdgePlace, to: EdgePlace)
    ensures { state.new ≡ set_edge_at state.old to.index (edge_at state.old from.index) }
{
    Edge::read(state, from).write(state, to);
}

// Some edges go.
#[tactic(auto, using(crate::proofs::Going::going))]
fn drop_edges(state: &mut Words, gone: Gone)
    requires few { edge_count state.old ≤ edge_room }
    ensures { state.new ≡ edges_left (takes gone) state.old }
{
    let mut left = 0;
    for e in 0..Number::EdgeCount.get(state) {
        let place = Below { index: e };
        if !gone.takes(Edge::read(state, place)) {
            move_edge(state, place, Below { index: left });
            left += 1;
        }
    }
    Number::EdgeCount.set(state, left);
}

// The order is to be made anew if somebody is muted.
#[tactic(auto, unfolding(crate::specs::Edges::dirty_if_muted))]
fn dirty_if_muted(state: &mut Words)
    ensures { state.new ≡ dirty_if_muted state.old }
{
    if Number::MutedLength.get(state) != 0 {
        Flag::Dirty.set(state, true);
    }
}

/// Removes every edge that is equal to the given one. The order is to be made anew if somebody is muted, whatever went.
#[tactic(auto, using(crate::proofs::Going::takes_equal, crate::proofs::EdgeLaws::removing_edge), unfolding(crate::specs::Edges::edge_removed))]
pub fn remove_edge(state: &mut Words, edge: Edge)
    requires few { edge_count state.old ≤ edge_room }
    ensures removes { state.new ≡ edge_removed state.old edge }
    ensures edges { edges_of state.new ≡ filter (λ e. not (is_edge edge e)) (edges_of state.old) }
    ensures dirty { is_dirty state.new ≡ (if muted_length state.old == 0 then is_dirty state.old else true) }
    ensures rest { ButEdges state.old state.new }
    ensures held { Held state.old → Held state.new }
{
    drop_edges(state, Gone::Equal(edge));
    dirty_if_muted(state);
}

/// A node loses its edges.
#[tactic(auto, using(crate::proofs::Going::takes_from, crate::proofs::EdgeLaws::clearing_out), unfolding(crate::specs::Edges::out_cleared))]
pub fn clear_out(state: &mut Words, id: Id)
    requires few { edge_count state.old ≤ edge_room }
    ensures clears { state.new ≡ out_cleared state.old id.index }
    ensures edges { edges_of state.new ≡ filter (λ e. not (e.source == id.index)) (edges_of state.old) }
    ensures dirty { is_dirty state.new ≡ is_dirty state.old }
    ensures rest { ButEdges state.old state.new }
    ensures held { Held state.old → Held state.new }
{
    drop_edges(state, Gone::From(id));
}

/// The edges into a node go.
#[tactic(auto, using(crate::proofs::Going::takes_into, crate::proofs::EdgeLaws::clearing_into), unfolding(crate::specs::Edges::into_cleared))]
pub fn clear_into(state: &mut Words, id: Id)
    requires few { edge_count state.old ≤ edge_room }
    ensures clears { state.new ≡ into_cleared state.old id.index }
    ensures edges { edges_of state.new ≡ filter (λ e. not (e.target == id.index)) (edges_of state.old) }
    ensures dirty { is_dirty state.new ≡ is_dirty state.old }
    ensures rest { ButEdges state.old state.new }
    ensures held { Held state.old → Held state.new }
{
    drop_edges(state, Gone::Into(id));
}
