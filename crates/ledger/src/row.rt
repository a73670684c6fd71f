// The rows: how many channels each has, and that they name slots.
ghost use Rattle.std.specs.Prelude.{◌≡◌, ℕ, ◌+◌, ◌*◌, ◌<◌, ◌≤◌, ◌↔◌, IsTrue, MatchOption};
ghost use Rattle.layout.specs.Sizes.{channel_room, node_rows};
ghost use Rattle.layout.specs.Header.{slots_of};
ghost use Rattle.layout.specs.Row.{channels_of, place_of};
ghost use Rattle.ledger.specs.Ranges.{HeaderInRange, has_port};
ghost use Rattle.ledger.specs.Tests.{RowKept, PortsKept, RowsKept, CountedTo, Named};

use layout::field::{Flag, Number};
use layout::index::{Below, Id, Row};
use layout::{IDS, NODE_ROWS, PORTS, SLOTS, SPARE, Words};

// The channels of a row name slots, and each is counted with its slot.
#[tactic(auto, using(crate::proofs::Counts::row_counted))]
fn named(state: &Words, row: Row, counts: &mut [usize; SLOTS]) -> bool
    requires range { HeaderInRange state.now }
    requires few { channels_of state.now row.index ≤ channel_room }
    requires counted { CountedTo state.now counts.old row.index }
    ensures named { IsTrue result ↔ ((c : ℕ) → c < channels_of state.now row.index → place_of state.now row.index c < slots_of state.now) }
    ensures counts { IsTrue result → CountedTo state.now counts.new (row.index + 1) }
{
    let slots = Number::Slots.get(state);
    for c in 0..Number::Channels(row).get(state) {
        let slot = Number::Place(row, Below { index: c }).get(state);
        if slot >= slots {
            return false;
        }
        counts[slot] += 1;
    }
    true
}

// A row: 1 to C channels where it is a port's that is there, and else none; and what they name.
#[tactic(auto, using(crate::proofs::Counts::row_empty))]
fn row(state: &Words, row: Row, live: bool, counts: &mut [usize; SLOTS]) -> bool
    requires range { HeaderInRange state.now }
    requires counted { CountedTo state.now counts.old row.index }
    ensures kept { IsTrue result ↔ RowKept state.now row.index live }
    ensures counts { IsTrue result → CountedTo state.now counts.new (row.index + 1) }
{
    let channels = Number::Channels(row).get(state);
    if !live {
        return channels == 0;
    }
    if channels == 0 || channels > Number::Ceiling.get(state) {
        return false;
    }
    named(state, row, counts)
}

// Whether a row of an id is a port's of a present node.
fn has_port(state: &Words, id: Id, port: usize) -> bool
    ensures { result ≡ has_port state.now id.index port }
{
    if !Flag::Present(id).get(state) {
        return false;
    }
    if port < PORTS {
        port < Number::Inputs(id).get(state)
    } else {
        port - PORTS < Number::Outputs(id).get(state)
    }
}

// The rows of one id.
fn ports(state: &Words, id: Id, counts: &mut [usize; SLOTS]) -> bool
    requires range { HeaderInRange state.now }
    requires counted { CountedTo state.now counts.old (node_rows * id.index) }
    ensures kept { IsTrue result ↔ PortsKept state.now id.index }
    ensures counts { IsTrue result → CountedTo state.now counts.new (node_rows * (id.index + 1)) }
{
    for port in 0..NODE_ROWS {
        let live = has_port(state, id, port);
        let place = Below {
            index: NODE_ROWS * id.index + port,
        };
        if !row(state, place, live, counts) {
            return false;
        }
    }
    true
}

// Every row, the spare one with them: how many channels name each slot, if all rows keep the rules.
pub(crate) fn rows(state: &Words) -> Option<[usize; SLOTS]>
    requires { HeaderInRange state.now }
    ensures { MatchOption result (¬ RowsKept state.now) (λ counts. RowsKept state.now × Named state.now counts) }
{
    let mut counts = [0; SLOTS];
    for index in 0..IDS {
        if !ports(state, Below { index }, &mut counts) {
            return None;
        }
    }
    if Number::Channels(Below { index: SPARE }).get(state) != 0 {
        return None;
    }
    Some(counts)
}
