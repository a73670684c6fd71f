// Adding one row to another.
ghost use Rattle.std.specs.Prelude.{◌≡◌, ◌≢◌, ◌<◌, ◌≤◌};
ghost use Rattle.layout.specs.Sizes.{spare};
ghost use Rattle.layout.specs.Row.{channels_of, cap_of};
ghost use Rattle.pool.specs.Rows.{Held};
ghost use Rattle.pool.specs.Pool.{mem, Sound};
ghost use Rattle.mixing.specs.Mixing.{target_of, names_one, keeps_one, adds_as_one, added_as_one, added_in_full, added};

use crate::mix::mix;
use layout::field::Number;
use layout::index::{Below, Row};
use layout::setting::{ChannelCountMode, ChannelInterpretation, Setting};
use layout::{SPARE, Words};
use pool::adding::{add_channel, add_row};
use pool::place;
use pool::row::{share, truncate};
use pool::samples::Samples;

/// How many channels the sum of `a` and of `b` channels has.
pub fn target_count(mode: ChannelCountMode, count: usize, a: usize, b: usize) -> usize
    ensures { result ≡ target_of mode count a b }
{
    match mode {
        ChannelCountMode::Max => a.max(b),
        ChannelCountMode::ClampedMax => a.max(b).min(count),
        ChannelCountMode::Explicit => count,
    }
}

/// Whether all channels of the row name one slot.
fn names_one(state: &Words, row: Row) -> bool
    requires held { Held state.now }
    requires some { 0 < channels_of state.now row.index }
    ensures { result ≡ names_one state.now row.index }
{
    let first = place::slot(state, row, Below { index: 0 }).index;
    for c in 1..Number::Channels(row).get(state) {
        if place::slot(state, row, Below { index: c }).index != first {
            return false;
        }
    }
    true
}

/// Whether one channel says all of the row: its channels name one slot, and they are not six channels of a slot above 0.
#[tactic(auto, unfolding(crate::specs::Mixing::keeps_one))]
fn keeps_one(state: &Words, row: Row) -> bool
    requires held { Held state.now }
    requires some { 0 < channels_of state.now row.index }
    ensures { result ≡ keeps_one state.now row.index }
{
    if Number::Channels(row).get(state) == 6
        && place::slot(state, row, Below { index: 0 }).index > 0
    {
        return false;
    }
    names_one(state, row)
}

/// Whether the rows are added as one channel each.
#[tactic(auto, unfolding(crate::specs::Mixing::adds_as_one))]
fn adds_as_one(
    state: &Words,
    row: Row,
    other: Row,
    count: usize,
    interpretation: ChannelInterpretation,
) -> bool
    requires held { Held state.now }
    requires some { 0 < channels_of state.now row.index }
    requires other_some { 0 < channels_of state.now other.index }
    ensures { result ≡ adds_as_one interpretation count state.now row.index other.index }
{
    match interpretation {
        ChannelInterpretation::Discrete => false,
        ChannelInterpretation::Speakers => {
            count <= 2 && keeps_one(state, row) && keeps_one(state, other)
        }
    }
}

/// Adds the first channel of the other row to the first of the row, which is then mixed up.
#[tactic(auto, unfolding(crate::specs::Mixing::added_as_one))]
fn add_one(state: &mut Words, pool: &mut [Samples], row: Row, other: Row, count: usize)
    requires sound { Sound (mem state.old pool.old) }
    requires apart { row.index ≢ other.index }
    requires some { 0 < channels_of state.old row.index }
    requires other_some { 0 < channels_of state.old other.index }
    requires fits { count ≤ cap_of state.old row.index }
    ensures { mem state.new pool.new ≡ added_as_one (mem state.old pool.old) row.index other.index count }
{
    truncate(state, row, 1);
    add_channel(
        state,
        pool,
        row,
        Below { index: 0 },
        other,
        Below { index: 0 },
    );
    mix(state, pool, row, count, ChannelInterpretation::Speakers);
}

/// Mixes both rows, the other one as a copy in the spare row, and adds them channel by channel.
#[tactic(auto, unfolding(crate::specs::Mixing::added_in_full))]
fn add_all(
    state: &mut Words,
    pool: &mut [Samples],
    row: Row,
    other: Row,
    count: usize,
    interpretation: ChannelInterpretation,
)
    requires sound { Sound (mem state.old pool.old) }
    requires row_in { row.index < spare }
    requires other_in { other.index < spare }
    requires apart { row.index ≢ other.index }
    requires some { 0 < channels_of state.old row.index }
    requires other_some { 0 < channels_of state.old other.index }
    requires fits { count ≤ cap_of state.old row.index }
    ensures { mem state.new pool.new ≡ added_in_full (mem state.old pool.old) row.index other.index count interpretation }
{
    let spare = Below { index: SPARE };
    mix(state, pool, row, count, interpretation);
    share(state, other, spare);
    mix(state, pool, spare, count, interpretation);
    add_row(state, pool, row, spare);
    truncate(state, spare, 0);
}

/// Adds a row to another, which then has the channels that the setting says.
#[tactic(auto, unfolding(crate::specs::Mixing::added, crate::specs::Mixing::added_to))]
pub fn add(state: &mut Words, pool: &mut [Samples], row: Row, other: Row, setting: Setting)
    requires sound { Sound (mem state.old pool.old) }
    requires row_in { row.index < spare }
    requires other_in { other.index < spare }
    requires apart { row.index ≢ other.index }
    requires some { 0 < channels_of state.old row.index }
    requires other_some { 0 < channels_of state.old other.index }
    requires fits { target_of setting.mode setting.count (channels_of state.old row.index) (channels_of state.old other.index) ≤ cap_of state.old row.index }
    ensures { mem state.new pool.new ≡ added (mem state.old pool.old) row.index other.index setting }
{
    let there = Number::Channels(row).get(state);
    let coming = Number::Channels(other).get(state);
    let count = target_count(setting.mode, setting.count, there, coming);
    if adds_as_one(state, row, other, count, setting.interpretation) {
        add_one(state, pool, row, other, count);
    } else {
        add_all(state, pool, row, other, count, setting.interpretation);
    }
}
