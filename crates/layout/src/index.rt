// Numbers below a bound. What the state is indexed by is one of these, so no reader and no writer asks for a range.
ghost use Rattle.std.specs.Prelude.{◌≡◌, ◌<◌, ◌≤◌, MatchResult};

use crate::{CHANNELS, EDGES, IDS, ROWS, SLOTS};

/// A number below `N`.
#[derive(Clone, Copy, Debug, PartialEq, Eq, PartialOrd, Ord)]
pub struct Below<const N: usize> {
    pub index: usize,
    ghost in_range: { index < N },
}

/// A number that is not below the bound.
#[derive(Clone, Copy, Debug, PartialEq, Eq)]
pub struct OutOfRange(pub usize);

impl<const N: usize> TryFrom<usize> for Below<N> {
    type Error = OutOfRange;

    ghost try_from_gives = { λ n r. MatchResult r (λ below. below.index ≡ n) (λ e. (e.0 ≡ n) × (N ≤ n)) };

    fn try_from(index: usize) -> Result<Self, OutOfRange> {
        if index < N {
            Ok(Below { index })
        } else {
            Err(OutOfRange(index))
        }
    }
}

/// A node; 0 is the destination.
pub type Id = Below<IDS>;

/// A place in the order or in the muted list.
pub type ListPlace = Below<IDS>;

/// A place among the stored edges.
pub type EdgePlace = Below<EDGES>;

/// A slot of the pool.
pub type Slot = Below<SLOTS>;

/// A row of channels: one port, or the spare row.
pub type Row = Below<ROWS>;

/// A channel of a row.
pub type Channel = Below<CHANNELS>;
