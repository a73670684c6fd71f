// Whole rows: a channel more or less at the end, and the channels of another row.
ghost use Rattle.std.specs.Prelude.{◌≡◌, ◌≢◌, ◌<◌, ◌≤◌};
ghost use Rattle.layout.specs.Header.{slots_of};
ghost use Rattle.layout.specs.Row.{channels_of, cap_of};
ghost use Rattle.pool.specs.Rows.{Held, popped, pushed, truncated, cleared, shared};

use crate::place;
use layout::Words;
use layout::field::Number;
use layout::index::{Below, Row, Slot};

/// The row loses its last channel.
#[tactic(auto, using(crate::proofs::Rows::pop_is, crate::proofs::Steps::short))]
pub fn pop(state: &mut Words, row: Row)
    requires held { Held state.old }
    requires some { 0 < channels_of state.old row.index }
    ensures { state.new ≡ popped state.old row.index }
{
    let last = Number::Channels(row).get(state) - 1;
    place::release(state, row, Below { index: last });
    Number::Channels(row).set(state, last);
}

/// The row has one more channel, which names the slot.
#[tactic(auto, using(crate::proofs::Calls::pushing), unfolding(crate::specs::Rows::grown, crate::specs::Rows::pushed))]
pub fn push(state: &mut Words, row: Row, slot: Slot)
    requires held { Held state.old }
    requires room { channels_of state.old row.index < cap_of state.old row.index }
    requires slot_in { slot.index < slots_of state.old }
    ensures { state.new ≡ pushed state.old row.index slot.index }
{
    let count = Number::Channels(row).get(state);
    let channel = Below { index: count };
    Number::Place(row, channel).set(state, 0);
    Number::Channels(row).set(state, count + 1);
    place::name(state, row, channel, slot);
}

/// The row keeps its first `count` channels at most.
#[tactic(auto, using(crate::proofs::Calls::truncating))]
pub fn truncate(state: &mut Words, row: Row, count: usize)
    requires { Held state.old }
    ensures { state.new ≡ truncated state.old row.index count }
{
    while Number::Channels(row).get(state) > count {
        pop(state, row);
    }
}

/// The row becomes one silent channel.
#[tactic(auto, using(crate::proofs::Calls::clearing), unfolding(crate::specs::Rows::cleared))]
pub fn clear(state: &mut Words, row: Row)
    requires held { Held state.old }
    requires some { 0 < cap_of state.old row.index }
    ensures { state.new ≡ cleared state.old row.index }
{
    truncate(state, row, 0);
    push(state, row, Below { index: 0 });
}

/// Row `to` has the channels of row `from`.
#[tactic(auto, using(crate::proofs::Calls::sharing))]
pub fn share(state: &mut Words, from: Row, to: Row)
    requires held { Held state.old }
    requires apart { from.index ≢ to.index }
    requires fits { channels_of state.old from.index ≤ cap_of state.old to.index }
    ensures { state.new ≡ shared state.old from.index to.index }
{
    truncate(state, to, 0);
    for c in 0..Number::Channels(from).get(state) {
        let slot = place::slot(state, from, Below { index: c });
        push(state, to, slot);
    }
}
