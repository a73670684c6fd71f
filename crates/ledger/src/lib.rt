// The ledger: whether the lent memory keeps the rules that every call relies on.
#![tactic(auto)]

ghost use Rattle.std.specs.Prelude.{◌↔◌, IsTrue};
ghost use Rattle.pool.specs.Pool.{mem};
ghost use Rattle.ledger.specs.Ledger.{Ledger};
ghost use Rattle.ledger.specs.Tests.{Named, InRange, Balanced};

mod count;
mod edge;
mod list;
mod range;
mod row;
mod silence;

use layout::field::Number;
use layout::{SLOTS, Words};
use pool::samples::Samples;

// The ranges and the edges. A test further down may rely on those above it.
fn in_range(state: &Words) -> bool
    ensures { IsTrue result ↔ InRange state.now }
{
    range::header(state) && range::ids(state) && edge::edges(state)
}

// The lists, the inequality and the holder counts.
fn balanced(state: &Words, counts: &[usize; SLOTS]) -> bool
    requires range { InRange state.now }
    requires named { Named state.now counts.now }
    ensures { IsTrue result ↔ Balanced state.now }
{
    list::lists(state) && count::roomy(state) && count::counted(state, counts)
}

/// Whether the lent state and the lent pool keep the ledger.
pub fn holds(state: &Words, pool: &[Samples]) -> bool
    ensures { IsTrue result ↔ Ledger (mem state.now pool.now) }
{
    if !in_range(state) {
        return false;
    }
    let Some(counts) = row::rows(state) else {
        return false;
    };
    if !balanced(state, &counts) {
        return false;
    }
    if pool.len() != Number::Slots.get(state) {
        return false;
    }
    silence::silent(&pool[0])
}
