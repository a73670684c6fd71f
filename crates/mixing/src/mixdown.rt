// Down-mixing: channels of a row that are sums over it.
ghost use Rattle.std.specs.Prelude.{◌≡◌, ℕ, ◌<◌, length, slice_index};
ghost use Rattle.layout.specs.Row.{channels_of};
ghost use Rattle.pool.specs.Pool.{mem, Sound, slot_of, sample, owned, rewritten};
ghost use Rattle.mixing.specs.Mixing.{frame_of, mixed_down};

use crate::frame::{Frame, Sum};
use crate::moves::first_six;
use layout::field::Number;
use layout::index::{Channel, Row};
use layout::{QUANTUM, Words};
use pool::adding::own;
use pool::samples::Samples;

/// Frame `i` of a row of two, four or six channels, the first six of which name these slots.
#[tactic(auto, unfolding(crate::specs::Mixing::frame_of))]
fn frame(pool: &[Samples], slots: &[usize; 6], six: bool, i: usize) -> Frame
    requires slots_in { (c : ℕ) → c < 6 → slice_index slots.now c < length pool.now }
    requires in_quantum { i < QUANTUM }
    ensures { result ≡ frame_of six (λ c. sample (slot_of pool.now (slice_index slots.now c)) i) }
{
    if six {
        Frame {
            left: pool[slots[0]][i],
            right: pool[slots[1]][i],
            center: pool[slots[2]][i],
            lfe: pool[slots[3]][i],
            surround_left: pool[slots[4]][i],
            surround_right: pool[slots[5]][i],
        }
    } else {
        Frame {
            left: pool[slots[0]][i],
            right: pool[slots[1]][i],
            center: 0.0,
            lfe: 0.0,
            surround_left: pool[slots[2]][i],
            surround_right: pool[slots[3]][i],
        }
    }
}

/// The samples of the channel that the sum makes of the row.
pub(crate) fn mix_down(state: &Words, pool: &[Samples], row: Row, sum: Sum) -> Samples
    requires sound { Sound (mem state.now pool.now) }
    ensures { result ≡ mixed_down (mem state.now pool.now) row.index sum }
{
    let slots = first_six(state, row);
    let six = Number::Channels(row).get(state) == 6;
    let mut mixed = [0.0; QUANTUM];
    for i in 0..QUANTUM {
        mixed[i] = sum.of(frame(pool, &slots, six, i));
    }
    mixed
}

/// The channel has these samples, in a slot that no other channel names.
#[tactic(auto, unfolding(pool::specs::Pool::rewritten))]
pub(crate) fn write(
    state: &mut Words,
    pool: &mut [Samples],
    row: Row,
    channel: Channel,
    samples: &Samples,
)
    requires sound { Sound (mem state.old pool.old) }
    requires channel_in { channel.index < channels_of state.old row.index }
    ensures { mem state.new pool.new ≡ rewritten samples.now (owned (mem state.old pool.old) row.index channel.index) row.index channel.index }
{
    let to = own(state, pool, row, channel);
    pool[to.index] = *samples;
}
