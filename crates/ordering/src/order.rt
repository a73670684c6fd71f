// The order and the muted list that a pass leaves, and the passes until one finds no breaker.
ghost use Rattle.std.specs.Prelude.{◌≡◌, ◌<◌, None};
ghost use Rattle.std.specs.List.{All};
ghost use Rattle.layout.specs.Edge.{edge_at, set_edge_at};
ghost use Rattle.layout.specs.Views.{present_of};
ghost use Rattle.ordering.specs.Order.{pass, fresh, sounding, silent, ordered};
ghost use Rattle.ordering.specs.Promise.{Sound, Promised, Unbounded};
ghost use Rattle.ordering.specs.View.{notes, index_of, Bounded};
ghost use Rattle.ordering.specs.State.{graph_of, clear, settle, order_nodes};
ghost use Rattle.ordering.specs.Shown.{Shows};

use crate::list::IdList;
use crate::pass::Pass;
use arrayvec::ArrayVec;
use layout::edge::Edge;
use layout::field::{Flag, Number};
use layout::index::{Below, EdgePlace, Id};
use layout::{IDS, Words};

impl Pass {
    /// With nothing noted.
    #[tactic(auto, unfolding(crate::specs::Order::fresh))]
    fn new() -> Pass
        ensures { notes result None ≡ fresh }
    {
        Pass {
            met: [false; IDS],
            path: ArrayVec::new(),
            finished: ArrayVec::new(),
            muted: [false; IDS],
        }
    }

    /// The order: the finished ids without the muted, reversed.
    fn sounding(&self) -> ArrayVec<usize, IDS>
        ensures ids { result.items ≡ sounding (notes self.now None) }
        ensures low { All (λ x. x < IDS) result.items }
    {
        let mut order = ArrayVec::new();
        for x in self.finished.as_slice() {
            if !self.muted[*x] {
                order.push(*x);
            }
        }
        order.reverse();
        order
    }

    /// The muted list, upward.
    #[tactic(auto, using(crate::proofs::Storing::passing_none, crate::proofs::Storing::silent_yes, crate::proofs::Storing::silent_no, crate::proofs::Storing::silent_absent, crate::proofs::Storing::silent_all))]
    fn silent(&self, state: &Words) -> ArrayVec<usize, IDS>
        ensures ids { result.items ≡ silent (notes self.now None) (present_of state.now) }
        ensures low { All (λ x. x < IDS) result.items }
    {
        let mut muted = ArrayVec::new();
        for index in 0..IDS {
            if Flag::Present(Below { index }).get(state) {
                if self.muted[index] {
                    muted.push(index);
                }
            }
        }
        muted
    }
}

// Stores the edge of one place at another.
fn move_edge(state: &mut Words, from: EdgePlace, to: EdgePlace)
    ensures { state.new ≡ set_edge_at state.old to.index (edge_at state.old from.index) }
{
    Edge::read(state, from).write(state, to);
}

// Removes all edges that leave a breaker, and keeps the others in their stored order.
#[tactic(auto, using(crate::proofs::Storing::clear_all, crate::proofs::Storing::clear_kept, crate::proofs::Storing::clear_gone, crate::proofs::Storing::clear_end))]
fn clear(state: &mut Words, breaker: Id)
    requires { Bounded state.old }
    ensures { state.new ≡ clear state.old breaker.index }
{
    let mut kept = 0;
    for e in 0..Number::EdgeCount.get(state) {
        let place = Below { index: e };
        if Edge::read(state, place).source != breaker.index {
            move_edge(state, place, Below { index: kept });
            kept += 1;
        }
    }
    Number::EdgeCount.set(state, kept);
}

// One pass: the breaker that it found, or what it noted is stored.
fn settle(state: &mut Words) -> Option<Id>
    requires { Bounded state.old }
    ensures found { index_of result ≡ (pass (graph_of state.old)).found }
    ensures state { state.new ≡ settle state.old (pass (graph_of state.old)) (pass (graph_of state.old)).found }
{
    let mut pass = Pass::new();
    let found = pass.run(state);
    if found.is_none() {
        let order = pass.sounding();
        let muted = pass.silent(state);
        IdList::Order.put(state, &order);
        IdList::Muted.put(state, &muted);
    }
    found
}

/// Orders the nodes, in passes, and answers how many there were.
pub fn order_nodes(state: &mut Words) -> usize
    requires { Bounded state.old }
    ensures passes { result ≡ (order_nodes state.old).passes }
    ensures state { state.new ≡ (order_nodes state.old).state }
    ensures shows { Shows state.old state.new (ordered (graph_of state.old)) }
    ensures counts { result ≡ (ordered (graph_of state.old)).passes }
    ensures promised { Sound (graph_of state.old) → Promised (graph_of state.old) (ordered (graph_of state.old)) }
    ensures unbounded { Sound (graph_of state.old) → Unbounded (graph_of state.old) }
{
    let mut passes = 1;
    while let Some(breaker) = settle(state) {
        clear(state, breaker);
        passes += 1;
    }
    passes
}
