// The inequality of the ports, and the holder counts.
ghost use Rattle.std.specs.Prelude.{◌≡◌, ℕ, ◌+◌, ◌*◌, ◌<◌, ◌≤◌, ◌↔◌, IsTrue, slice_index};
ghost use Rattle.layout.specs.Sizes.{id_room, node_rows};
ghost use Rattle.layout.specs.Header.{ceiling_of, slots_of};
ghost use Rattle.layout.specs.Node.{is_present};
ghost use Rattle.layout.specs.Views.{ports_at, ports_of};
ghost use Rattle.ledger.specs.Ranges.{HeaderInRange};
ghost use Rattle.ledger.specs.Tests.{IdsInRange, Named, Counted};

use layout::field::{Flag, Number};
use layout::index::{Below, Id};
use layout::{IDS, SLOTS, Words};

// How many ports the node under an id has, if there is one.
fn ports_at(state: &Words, id: Id) -> usize
    requires { IdsInRange state.now }
    ensures ports { result ≡ ports_at state.now id.index }
    ensures few { result ≤ node_rows }
{
    if Flag::Present(id).get(state) {
        Number::Inputs(id).get(state) + Number::Outputs(id).get(state)
    } else {
        0
    }
}

// How many ports all present nodes have.
#[tactic(auto, unfolding(layout::specs::Views::ports_of))]
fn ports(state: &Words) -> usize
    requires { IdsInRange state.now }
    ensures ports { result ≡ ports_of state.now }
    ensures few { result ≤ node_rows * id_room }
{
    let mut ports = 0;
    for index in 0..IDS {
        ports += ports_at(state, Below { index });
    }
    ports
}

// Every port and the spare row may have C channels, each with a slot of its own above 0.
pub(crate) fn roomy(state: &Words) -> bool
    requires range { HeaderInRange state.now }
    requires ids { IdsInRange state.now }
    ensures { IsTrue result ↔ ((ports_of state.now + 1) * ceiling_of state.now + 1 ≤ slots_of state.now) }
{
    (ports(state) + 1) * Number::Ceiling.get(state) < Number::Slots.get(state)
}

// The holder count of slot 0 is 0, and that of every other slot is how many channels name it.
pub(crate) fn counted(state: &Words, counts: &[usize; SLOTS]) -> bool
    requires range { HeaderInRange state.now }
    requires named { Named state.now counts.now }
    ensures { IsTrue result ↔ Counted state.now }
{
    if Number::Holders(Below { index: 0 }).get(state) != 0 {
        return false;
    }
    for index in 1..Number::Slots.get(state) {
        if Number::Holders(Below { index }).get(state) != counts[index] {
            return false;
        }
    }
    true
}
