// The places of a row: which slot each of its channels names.
ghost use Rattle.std.specs.Prelude.{◌≡◌, ◌<◌};
ghost use Rattle.layout.specs.Header.{slots_of};
ghost use Rattle.layout.specs.Row.{channels_of, place_of};
ghost use Rattle.pool.specs.Rows.{Held, released, named};

use crate::slot::{drop_holder, gain_holder};
use layout::Words;
use layout::field::Number;
use layout::index::{Below, Channel, Row, Slot};

/// The slot that a channel of a row names.
#[tactic(auto, using(crate::proofs::Steps::live_named))]
pub fn slot(state: &Words, row: Row, channel: Channel) -> Slot
    requires held { Held state.now }
    requires channel_in { channel.index < channels_of state.now row.index }
    ensures { result.index ≡ place_of state.now row.index channel.index }
{
    Below {
        index: Number::Place(row, channel).get(state),
    }
}

/// The channel names silence, and the slot that it named has a holder less.
#[tactic(auto, using(crate::proofs::Steps::live_held), unfolding(crate::specs::Rows::released))]
pub fn release(state: &mut Words, row: Row, channel: Channel)
    requires held { Held state.old }
    requires channel_in { channel.index < channels_of state.old row.index }
    ensures { state.new ≡ released state.old row.index channel.index }
{
    let held = slot(state, row, channel);
    drop_holder(state, held);
    Number::Place(row, channel).set(state, 0);
}

/// The channel, which names silence, names the slot, which has a holder more.
#[tactic(auto, using(crate::proofs::Free::holders_few), unfolding(crate::specs::Rows::named))]
pub fn name(state: &mut Words, row: Row, channel: Channel, slot: Slot)
    requires held { Held state.old }
    requires channel_in { channel.index < channels_of state.old row.index }
    requires slot_in { slot.index < slots_of state.old }
    ensures { state.new ≡ named state.old row.index channel.index slot.index }
{
    gain_holder(state, slot);
    Number::Place(row, channel).set(state, slot.index);
}
