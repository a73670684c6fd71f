// The depth-first walk along the stored edges.
ghost use Rattle.std.specs.Prelude.{◌≡◌, ℕ, ◌+◌, ◌-◌, ◌<◌, ◌≤◌, ◌==◌, Bool, false, if◌then◌else◌, ◌++◌, [], ◌∷◌, None, length, drop, take};
ghost use Rattle.std.specs.List.{All, find, position};
ghost use Rattle.arrayvec.specs.ArrayVec.{array_vec_len};
ghost use Rattle.layout.specs.Node.{is_breaker};
ghost use Rattle.layout.specs.Views.{edges_of, breakers_of, present_of};
ghost use Rattle.ordering.specs.Walk.{flag, unmet, mute_all, opened_or_muted, enter, along, visit};
ghost use Rattle.ordering.specs.Order.{breaks, targets};
ghost use Rattle.ordering.specs.View.{notes, index_of, Bounded};

use crate::pass::Pass;
use layout::edge::Edge;
use layout::field::{Flag, Number};
use layout::index::{Below, Id};
use layout::{IDS, Words};

// Mutes some ids.
#[tactic(auto, using(crate::proofs::Runs::mute_on, crate::proofs::Runs::mute_end))]
fn mute(muted: &mut [bool; IDS], ids: &[usize])
    requires { All (λ x. x < IDS) ids.now }
    ensures { muted.new ≡ mute_all muted.old ids.now }
{
    for x in ids {
        muted[*x] = true;
    }
}

impl Pass {
    /// The first breaker on the path from a place on.
    #[tactic(auto, using(crate::proofs::Runs::find_here, crate::proofs::Runs::find_on, crate::proofs::Runs::find_end))]
    fn first_breaker(&self, state: &Words, at: usize) -> Option<Id>
        requires { at ≤ array_vec_len self.now.path }
        ensures { index_of result ≡ find (is_breaker state.now) (drop at self.now.path.items) }
    {
        for x in &self.path.as_slice()[at..] {
            let id = Below { index: *x };
            if Flag::Breaker(id).get(state) {
                return Some(id);
            }
        }
        None
    }

    /// The path from a place on is a loop: its first breaker is found, or all of it is muted.
    #[tactic(auto, unfolding(crate::specs::Walk::opened_or_muted))]
    fn meet(&mut self, state: &Words, at: usize) -> Option<Id>
        requires { at ≤ array_vec_len self.old.path }
        ensures meets { notes self.new (index_of result)
            ≡ opened_or_muted (notes self.old None) (drop at self.old.path.items) (find (is_breaker state.now) (drop at self.old.path.items)) }
        ensures met { self.new.met ≡ self.old.met }
        ensures path { self.new.path.items ≡ self.old.path.items }
    {
        let found = self.first_breaker(state, at);
        if found.is_none() {
            mute(&mut self.muted, &self.path.as_slice()[at..]);
        }
        found
    }

    /// The place of an id on the path.
    fn place(&self, id: Id) -> Option<usize>
        ensures { result ≡ position (λ x. x == id.index) self.now.path.items }
    {
        self.path.iter().position(|x| *x == id.index)
    }

    /// Comes to an id.
    #[tactic(auto, unfolding(crate::specs::Walk::enter), using(crate::proofs::Sets::unmet_set))]
    fn enter(&mut self, id: Id)
        requires { flag self.old.met id.index ≡ false }
        ensures enters { notes self.new None ≡ enter (notes self.old None) id.index }
        ensures path { self.new.path.items ≡ self.old.path.items ++ id.index ∷ [] }
        ensures fewer { unmet self.new.met + 1 ≡ unmet self.old.met }
    {
        self.met[id.index] = true;
        self.path.push(id.index);
    }

    /// Back from an id, which is the path's last one and is finished unless a breaker was found.
    fn leave(&mut self, id: Id, found: bool)
        requires { 0 < array_vec_len self.old.path }
        ensures met { self.new.met ≡ self.old.met }
        ensures path { self.new.path.items ≡ take (array_vec_len self.old.path - 1) self.old.path.items }
        ensures finished { self.new.finished.items ≡ (if found then self.old.finished.items else self.old.finished.items ++ id.index ∷ []) }
        ensures muted { self.new.muted ≡ self.old.muted }
    {
        self.path.pop();
        if !found {
            self.finished.push(id.index);
        }
    }

    /// The walk from an id on: the breaker that was found.
    #[cycle(walk)]
    pub fn visit(&mut self, state: &Words, id: Id) -> Option<Id>
        requires { Bounded state.now }
        ensures walks { (f : ℕ) → unmet self.old.met < f
            → notes self.new (index_of result) ≡ visit (targets (edges_of state.now)) (breaks (breakers_of state.now)) f (notes self.old None) id.index }
        ensures path { self.new.path.items ≡ self.old.path.items }
        ensures fewer { unmet self.new.met ≤ unmet self.old.met }
    {
        if let Some(at) = self.place(id) {
            return self.meet(state, at);
        }
        if self.met[id.index] {
            return None;
        }
        self.enter(id);
        let found = self.follow(state, id);
        self.leave(id, found.is_some());
        found
    }

    /// The walk along the edges of an id, up to the first breaker that is found.
    #[cycle(walk)]
    fn follow(&mut self, state: &Words, id: Id) -> Option<Id>
        requires { Bounded state.now }
        ensures walks { (f : ℕ) → unmet self.old.met < f
            → notes self.new (index_of result) ≡ along (visit (targets (edges_of state.now)) (breaks (breakers_of state.now)) f) (notes self.old None) (targets (edges_of state.now) id.index) }
        ensures path { self.new.path.items ≡ self.old.path.items }
        ensures fewer { unmet self.new.met ≤ unmet self.old.met }
    {
        for e in 0..Number::EdgeCount.get(state) {
            let edge = Edge::read(state, Below { index: e });
            if edge.source == id.index {
                let found = self.visit(state, Below { index: edge.target });
                if found.is_some() {
                    return found;
                }
            }
        }
        None
    }

    /// The walk over all present ids, up to the first breaker that is found.
    pub fn run(&mut self, state: &Words) -> Option<Id>
        requires { Bounded state.now }
        ensures { (f : ℕ) → unmet self.old.met < f
            → notes self.new (index_of result) ≡ along (visit (targets (edges_of state.now)) (breaks (breakers_of state.now)) f) (notes self.old None) (present_of state.now) }
    {
        for index in 0..IDS {
            let id = Below { index };
            if Flag::Present(id).get(state) {
                let found = self.visit(state, id);
                if found.is_some() {
                    return found;
                }
            }
        }
        None
    }
}
