// Channels that share slots, and are copied before they are written.
ghost use Rattle.std.specs.Prelude.{◌≡◌, ◌≢◌, ◌<◌, length};
ghost use Rattle.layout.specs.Row.{channels_of, place_of};
ghost use Rattle.pool.specs.Pool.{mem, Sound, owned, added_channel, added_row};

use crate::samples::{Samples, plus};
use crate::{place, slot};
use layout::Words;
use layout::field::Number;
use layout::index::{Below, Channel, Row, Slot};

/// The channel names a slot that no other channel names, with the same samples; the answer is that slot.
#[tactic(auto, using(crate::proofs::Calls::owning), unfolding(crate::specs::Pool::moved))]
pub fn own(state: &mut Words, pool: &mut [Samples], row: Row, channel: Channel) -> Slot
    requires sound { Sound (mem state.old pool.old) }
    requires channel_in { channel.index < channels_of state.old row.index }
    ensures owns { mem state.new pool.new ≡ owned (mem state.old pool.old) row.index channel.index }
    ensures names { result.index ≡ place_of state.new row.index channel.index }
    ensures inside { result.index < length pool.new }
{
    let shared = place::slot(state, row, channel);
    if Number::Holders(shared).get(state) == 1 {
        return shared;
    }
    let free = slot::lowest_free(state);
    pool[free.index] = pool[shared.index];
    place::release(state, row, channel);
    place::name(state, row, channel, free);
    free
}

/// Adds a channel of row `other` to a channel of row `row`.
#[tactic(auto, using(crate::proofs::Calls::adding))]
pub fn add_channel(
    state: &mut Words,
    pool: &mut [Samples],
    row: Row,
    channel: Channel,
    other: Row,
    other_channel: Channel,
)
    requires sound { Sound (mem state.old pool.old) }
    requires channel_in { channel.index < channels_of state.old row.index }
    requires other_in { other_channel.index < channels_of state.old other.index }
    requires apart { row.index ≡ other.index → channel.index ≢ other_channel.index }
    ensures { mem state.new pool.new ≡ added_channel (mem state.old pool.old) row.index channel.index other.index other_channel.index }
{
    let from = place::slot(state, other, other_channel);
    if from.index == 0 {
        return;
    }
    if place::slot(state, row, channel).index == 0 {
        place::name(state, row, channel, from);
        return;
    }
    let to = own(state, pool, row, channel);
    pool[to.index] = plus(&pool[to.index], &pool[from.index]);
}

/// Adds row `other` to row `row`, channel by channel.
#[tactic(auto, using(crate::proofs::Steps::short))]
pub fn add_row(state: &mut Words, pool: &mut [Samples], row: Row, other: Row)
    requires sound { Sound (mem state.old pool.old) }
    requires apart { row.index ≢ other.index }
    requires alike { channels_of state.old row.index ≡ channels_of state.old other.index }
    ensures { mem state.new pool.new ≡ added_row (mem state.old pool.old) row.index other.index }
{
    for c in 0..Number::Channels(row).get(state) {
        let channel = Below { index: c };
        add_channel(state, pool, row, channel, other, channel);
    }
}
