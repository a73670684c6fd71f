// Every number of the header and of the nodes is in range.
ghost use Rattle.std.specs.Prelude.{◌<◌, ◌↔◌, IsTrue};
ghost use Rattle.layout.specs.Node.{node_word};
ghost use Rattle.ledger.specs.Ranges.{HeaderInRange, NodeInRange, IdInRange};
ghost use Rattle.ledger.specs.Tests.{IdsInRange};

use layout::field::{Flag, Number};
use layout::index::{Below, Id};
use layout::{CHANNELS, EDGES, IDS, PORTS, SLOTS, Words};

// Where the words of the flags stand, in the header and in a node: layout's readers answer whether such a word is 0, and not what else it holds.
const DIRTY: usize = 2;

const OPEN: usize = 3;

const NODE: usize = 16 + 2 * IDS;

const NODE_WORDS: usize = 16;

const PRESENT: usize = 0;

const DROPPED: usize = 6;

const BREAKER: usize = 7;

const HAS_INPUTS: usize = 8;

const SIDE_EFFECTS: usize = 9;

// The words of the header.
pub(crate) fn header(state: &Words) -> bool
    ensures { IsTrue result ↔ HeaderInRange state.now }
{
    let ceiling = Number::Ceiling.get(state);
    let slots = Number::Slots.get(state);
    let next = Number::Next.get(state);
    let order = Number::OrderLength.get(state);
    ceiling >= 1
        && ceiling <= CHANNELS
        && slots > ceiling
        && slots <= SLOTS
        && state[DIRTY] < 2
        && state[OPEN] < 2
        && order <= IDS
        && Number::MutedLength.get(state) <= IDS
        && Number::EdgeCount.get(state) <= EDGES
        && next <= order
        && (Flag::Open.get(state) || next == 0)
}

// A flag of a node holds 0 or 1.
fn flag_word(state: &Words, id: Id, word: usize) -> bool
    requires { word < 16 }
    ensures { IsTrue result ↔ (node_word state.now id.index word < 2) }
{
    state[NODE + NODE_WORDS * id.index + word] < 2
}

// The words of a present node.
fn node(state: &Words, id: Id) -> bool
    ensures { IsTrue result ↔ NodeInRange state.now id.index }
{
    let outputs = Number::Outputs(id).get(state);
    let count = Number::Count(id).get(state);
    Number::Inputs(id).get(state) <= PORTS
        && outputs <= PORTS
        && (id.index != 0 || outputs >= 1)
        && count >= 1
        && count <= Number::Ceiling.get(state)
        && Number::Mode(id).get(state) < 3
        && Number::Interpretation(id).get(state) < 2
        && flag_word(state, id, DROPPED)
        && flag_word(state, id, BREAKER)
        && flag_word(state, id, HAS_INPUTS)
        && flag_word(state, id, SIDE_EFFECTS)
}

// One id: its word of presence, and the words of the node if there is one.
fn id(state: &Words, id: Id) -> bool
    ensures { IsTrue result ↔ IdInRange state.now id.index }
{
    flag_word(state, id, PRESENT) && (!Flag::Present(id).get(state) || node(state, id))
}

// Every id.
pub(crate) fn ids(state: &Words) -> bool
    ensures { IsTrue result ↔ IdsInRange state.now }
{
    for index in 0..IDS {
        if !id(state, Below { index }) {
            return false;
        }
    }
    true
}
