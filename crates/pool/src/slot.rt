// The holder counts of the slots. Slot 0 is silence and has none.
ghost use Rattle.std.specs.Prelude.{◌≡◌, ℕ, ◌+◌, ◌-◌, ◌<◌, ◌≤◌, ◌^◌};
ghost use Rattle.layout.specs.Header.{slots_of};
ghost use Rattle.layout.specs.Row.{holders_of};
ghost use Rattle.pool.specs.Rows.{Held, lowest_free_of, dropped, gained};

use layout::Words;
use layout::field::Number;
use layout::index::{Below, Slot};

/// The lowest slot above 0 that nobody holds.
#[tactic(auto, using(crate::proofs::Free::lowest_first, crate::proofs::Free::lowest_here))]
pub fn lowest_free(state: &Words) -> Slot
    requires held { Held state.now }
    requires free { lowest_free_of state.now < slots_of state.now }
    ensures { result.index ≡ lowest_free_of state.now }
{
    let mut k = 1;
    while Number::Holders(Below { index: k }).get(state) != 0 {
        k += 1;
    }
    Below { index: k }
}

/// The slot has a holder less.
#[tactic(auto, unfolding(crate::specs::Rows::dropped))]
pub(crate) fn drop_holder(state: &mut Words, slot: Slot)
    requires { 0 < slot.index → 1 ≤ holders_of state.old slot.index }
    ensures { state.new ≡ dropped state.old slot.index }
{
    if slot.index != 0 {
        let count = Number::Holders(slot).get(state);
        Number::Holders(slot).set(state, count - 1);
    }
}

/// The slot has a holder more.
#[tactic(auto, unfolding(crate::specs::Rows::gained))]
pub(crate) fn gain_holder(state: &mut Words, slot: Slot)
    requires { holders_of state.old slot.index + 1 < 2 ^ 32 }
    ensures { state.new ≡ gained state.old slot.index }
{
    if slot.index != 0 {
        let count = Number::Holders(slot).get(state);
        Number::Holders(slot).set(state, count + 1);
    }
}
