// A row is mixed to another number of channels.
ghost use Rattle.std.specs.Prelude.{◌≡◌, ◌<◌, ◌≤◌, ◌+◌, ◌*◌};
ghost use Rattle.layout.specs.Row.{channels_of, cap_of};
ghost use Rattle.pool.specs.Pool.{mem, Sound};
ghost use Rattle.mixing.specs.Mixing.{down_to_one, summed_front, pair_of, mixed};

use crate::frame::Sum;
use crate::mixdown::{mix_down, write};
use crate::moves::{MOVES, SURROUNDS_TO_BACK, rearrange, resize};
use layout::Words;
use layout::field::Number;
use layout::index::{Below, Row};
use layout::setting::ChannelInterpretation;
use pool::row::truncate;
use pool::samples::Samples;

/// The row is one channel, a sum over it.
#[tactic(auto, unfolding(crate::specs::Mixing::down_to_one))]
fn sum_to_one(state: &mut Words, pool: &mut [Samples], row: Row, sum: Sum)
    requires sound { Sound (mem state.old pool.old) }
    requires some { 0 < channels_of state.old row.index }
    ensures { mem state.new pool.new ≡ down_to_one (mem state.old pool.old) row.index sum }
{
    let mixed = mix_down(state, pool, row, sum);
    write(state, pool, row, Below { index: 0 }, &mixed);
    truncate(state, row, 1);
}

/// The first two channels of the row are sums over it.
#[tactic(auto, unfolding(crate::specs::Mixing::summed_front))]
fn sum_front(state: &mut Words, pool: &mut [Samples], row: Row, left: Sum, right: Sum)
    requires sound { Sound (mem state.old pool.old) }
    requires two { 1 < channels_of state.old row.index }
    ensures { mem state.new pool.new ≡ summed_front (mem state.old pool.old) row.index left right }
{
    let first = mix_down(state, pool, row, left);
    let second = mix_down(state, pool, row, right);
    write(state, pool, row, Below { index: 0 }, &first);
    write(state, pool, row, Below { index: 1 }, &second);
}

/// Both counts as one number, the one that is left in the tens; 0 where they are not looked up.
#[tactic(auto, unfolding(crate::specs::Mixing::pair_of))]
fn pair(from: usize, to: usize, interpretation: ChannelInterpretation) -> usize
    ensures is { result ≡ pair_of interpretation from to }
    ensures counts { 0 < result → result ≡ 10 * from + to }
    ensures from_few { 0 < result → from ≤ 6 }
    ensures to_few { 0 < result → to ≤ 6 }
{
    match interpretation {
        ChannelInterpretation::Discrete => 0,
        ChannelInterpretation::Speakers => {
            if from > 6 || to > 6 {
                0
            } else {
                10 * from + to
            }
        }
    }
}

/// Mixes the row to `count` channels. What no layout says is truncated, or filled with silence.
#[tactic(auto, unfolding(crate::specs::Mixing::mixed, crate::specs::Mixing::mixed_pair))]
pub fn mix(
    state: &mut Words,
    pool: &mut [Samples],
    row: Row,
    count: usize,
    interpretation: ChannelInterpretation,
)
    requires sound { Sound (mem state.old pool.old) }
    requires some { 0 < channels_of state.old row.index }
    requires fits { count ≤ cap_of state.old row.index }
    ensures { mem state.new pool.new ≡ mixed (mem state.old pool.old) row.index count interpretation }
{
    let from = Number::Channels(row).get(state);
    if from == count {
        return;
    }
    match pair(from, count, interpretation) {
        12 => rearrange(state, row, MOVES[0]),
        14 => rearrange(state, row, MOVES[1]),
        16 => rearrange(state, row, MOVES[2]),
        24 => rearrange(state, row, MOVES[3]),
        26 => rearrange(state, row, MOVES[4]),
        45 => rearrange(state, row, MOVES[5]),
        46 => rearrange(state, row, MOVES[6]),
        21 => sum_to_one(state, pool, row, Sum::TwoToOne),
        41 => sum_to_one(state, pool, row, Sum::FourToOne),
        61 => sum_to_one(state, pool, row, Sum::SixToOne),
        42 => {
            sum_front(state, pool, row, Sum::FourToLeft, Sum::FourToRight);
            truncate(state, row, 2);
        }
        62 => {
            sum_front(state, pool, row, Sum::SixToLeft, Sum::SixToRight);
            truncate(state, row, 2);
        }
        64 => {
            sum_front(state, pool, row, Sum::SixToFrontLeft, Sum::SixToFrontRight);
            rearrange(state, row, SURROUNDS_TO_BACK);
        }
        _ => resize(state, row, count),
    }
}
