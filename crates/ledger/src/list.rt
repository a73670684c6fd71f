// The order and the muted list: distinct ids, present or finished, all of them where nothing is to be ordered anew, and edges that run forward.
ghost use Rattle.std.specs.Prelude.{◌≡◌, ◌<◌, ◌↔◌, IsTrue, MatchOption};
ghost use Rattle.layout.specs.Sizes.{id_room};
ghost use Rattle.ledger.specs.Listed.{listed_count, listed_at, AreThere, CoverAll, LeadsOn, RunForward};
ghost use Rattle.ledger.specs.Ranges.{HeaderInRange, EdgeInRange};
ghost use Rattle.ledger.specs.Tests.{EdgesKept, ListsKept, IsPlaced, ListsRight};

use layout::edge::Edge;
use layout::field::{Flag, Number};
use layout::index::{Below, EdgePlace};
use layout::{IDS, Words};

// The place of an id that neither list holds.
const UNLISTED: usize = 2 * IDS;

// How many ids the order and the muted list have together.
fn count(state: &Words) -> usize
    requires { HeaderInRange state.now }
    ensures { result ≡ listed_count state.now }
{
    Number::OrderLength.get(state) + Number::MutedLength.get(state)
}

// The id at a place of the two lists, the order first.
fn listed(state: &Words, k: usize) -> usize
    requires range { HeaderInRange state.now }
    requires listed { k < listed_count state.now }
    ensures { result ≡ listed_at state.now k }
{
    let order = Number::OrderLength.get(state);
    if k < order {
        Number::Order(Below { index: k }).get(state)
    } else {
        Number::Muted(Below { index: k - order }).get(state)
    }
}

// Where each id stands in the two lists, unless one stands there twice.
fn places(state: &Words) -> Option<[usize; IDS]>
    requires { HeaderInRange state.now }
    ensures { MatchOption result (¬ ListsKept state.now) (λ places. ListsKept state.now × IsPlaced state.now places) }
{
    let mut places = [UNLISTED; IDS];
    for k in 0..count(state) {
        let id = listed(state, k);
        if id >= IDS || places[id] != UNLISTED {
            return None;
        }
        places[id] = k;
    }
    Some(places)
}

// Each listed id is present or finished.
fn there(state: &Words) -> bool
    requires range { HeaderInRange state.now }
    requires kept { ListsKept state.now }
    ensures { IsTrue result ↔ AreThere state.now }
{
    let open = Flag::Open.get(state);
    let next = Number::Next.get(state);
    for k in 0..count(state) {
        let id = Below {
            index: listed(state, k),
        };
        if !Flag::Present(id).get(state) && !(open && k < next) {
            return false;
        }
    }
    true
}

// The two lists hold every present id.
fn cover(state: &Words, places: &[usize; IDS]) -> bool
    requires range { HeaderInRange state.now }
    requires kept { ListsKept state.now }
    requires placed { IsPlaced state.now places.now }
    ensures { IsTrue result ↔ CoverAll state.now }
{
    let count = count(state);
    for index in 0..IDS {
        if Flag::Present(Below { index }).get(state) && places[index] >= count {
            return false;
        }
    }
    true
}

// An edge between ids of the order leads to the later one.
fn leads_on(state: &Words, places: &[usize; IDS], e: EdgePlace) -> bool
    requires range { HeaderInRange state.now }
    requires ends { EdgeInRange state.now e.index }
    requires kept { ListsKept state.now }
    requires placed { IsPlaced state.now places.now }
    ensures { IsTrue result ↔ LeadsOn state.now e.index }
{
    let order = Number::OrderLength.get(state);
    let edge = Edge::read(state, e);
    let source = places[edge.source];
    let target = places[edge.target];
    source >= order || target >= order || source < target
}

// Edges between ids of the order run forward.
fn forward(state: &Words, places: &[usize; IDS]) -> bool
    requires range { HeaderInRange state.now }
    requires edges { EdgesKept state.now }
    requires kept { ListsKept state.now }
    requires placed { IsPlaced state.now places.now }
    ensures { IsTrue result ↔ RunForward state.now }
{
    for index in 0..Number::EdgeCount.get(state) {
        if !leads_on(state, places, Below { index }) {
            return false;
        }
    }
    true
}

// All that is asked of the two lists.
pub(crate) fn lists(state: &Words) -> bool
    requires range { HeaderInRange state.now }
    requires edges { EdgesKept state.now }
    ensures { IsTrue result ↔ ListsRight state.now }
{
    let Some(places) = places(state) else {
        return false;
    };
    if !there(state) {
        return false;
    }
    if Flag::Dirty.get(state) {
        return !Flag::Open.get(state);
    }
    cover(state, &places) && forward(state, &places)
}
