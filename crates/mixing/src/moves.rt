// Up-mixing: a row's channels are moved to their places in a larger layout.
ghost use Rattle.std.specs.Prelude.{◌≡◌, ◌<◌, ◌≤◌, ◌+◌, length, map};
ghost use Rattle.std.specs.List.{range_with_len};
ghost use Rattle.layout.specs.Row.{channels_of, cap_of};
ghost use Rattle.pool.specs.Rows.{Held};
ghost use Rattle.mixing.specs.Moves.{slot_at, picked, rearranged, resized};

use layout::Words;
use layout::field::Number;
use layout::index::{Below, Row};
use pool::place;
use pool::row::{push, truncate};

/// For each channel of the larger layout an input channel, or silence.
pub const MOVES: [&[Option<usize>]; 7] = [
    // 1 to 2
    &[Some(0), Some(0)],
    // 1 to 4
    &[Some(0), Some(0), None, None],
    // 1 to 6
    &[None, None, Some(0), None, None, None],
    // 2 to 4
    &[Some(0), Some(1), None, None],
    // 2 to 6
    &[Some(0), Some(1), None, None, None, None],
    // 4 to 5
    &[Some(0), Some(1), None, Some(2), Some(3)],
    // 4 to 6
    &[Some(0), Some(1), None, None, Some(2), Some(3)],
];

/// 6 to 4, once the first two channels are sums: the surrounds move up to them.
pub const SURROUNDS_TO_BACK: &[Option<usize>] = &[Some(0), Some(1), Some(4), Some(5)];

/// The slot of a channel, or silence where the row has no such channel.
#[tactic(auto, using(pool::proofs::Steps::live_place), unfolding(crate::specs::Moves::slot_at))]
pub(crate) fn slot_at(state: &Words, row: Row, channel: usize) -> usize
    requires held { Held state.now }
    ensures { result ≡ slot_at state.now row.index channel }
{
    if channel < Number::Channels(row).get(state) {
        place::slot(state, row, Below { index: channel }).index
    } else {
        0
    }
}

/// The slots of the first six channels.
pub(crate) fn first_six(state: &Words, row: Row) -> [usize; 6]
    requires held { Held state.now }
    ensures { result ≡ map (slot_at state.now row.index) (range_with_len 0 6) }
{
    [
        slot_at(state, row, 0),
        slot_at(state, row, 1),
        slot_at(state, row, 2),
        slot_at(state, row, 3),
        slot_at(state, row, 4),
        slot_at(state, row, 5),
    ]
}

/// The slot that a move takes.
#[tactic(auto, unfolding(crate::specs::Moves::picked))]
fn taken(slots: &[usize; 6], source: Option<usize>) -> usize
    ensures { result ≡ picked slots.now source }
{
    match source {
        Some(channel) => slots.get(channel).copied().unwrap_or(0),
        None => 0,
    }
}

/// The row has the channels that the moves take from it.
#[tactic(auto, using(crate::proofs::Moving::rearranging))]
pub(crate) fn rearrange(state: &mut Words, row: Row, moves: &[Option<usize>])
    requires held { Held state.old }
    requires few { channels_of state.old row.index ≤ 6 }
    requires fits { length moves.now ≤ cap_of state.old row.index }
    ensures { state.new ≡ rearranged state.old row.index moves.now }
{
    let slots = first_six(state, row);
    truncate(state, row, 0);
    for i in 0..moves.len() {
        let slot = taken(&slots, moves[i]);
        push(state, row, Below { index: slot });
    }
}

/// The row has `count` channels: it is truncated, or filled with silence.
#[tactic(auto, using(crate::proofs::Moving::resizing))]
pub(crate) fn resize(state: &mut Words, row: Row, count: usize)
    requires held { Held state.old }
    requires fits { count ≤ cap_of state.old row.index }
    ensures { state.new ≡ resized state.old row.index count }
{
    truncate(state, row, count);
    while Number::Channels(row).get(state) < count {
        push(state, row, Below { index: 0 });
    }
}
