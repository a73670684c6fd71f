// The two lists of ids, stored a word an id with their length in a word of the header.
ghost use Rattle.std.specs.Prelude.{◌≡◌, ℕ, ◌<◌, ◌≤◌, List, length};
ghost use Rattle.std.specs.List.{All};
ghost use Rattle.layout.specs.Number.{set_number};
ghost use Rattle.ordering.specs.Listing.{set_at, set_length, put_list};

use layout::field::Number;
use layout::index::{Below, ListPlace};
use layout::{IDS, Words};

/// A list of ids that the state holds.
#[derive(Clone, Copy, Debug, PartialEq, Eq)]
pub enum IdList {
    Order,
    Muted,
}

impl IdList {
    fn place(self, k: ListPlace) -> Number
        ensures { (s : List ℕ) (x : ℕ) → set_number s result x ≡ set_at self s k.index x }
    {
        match self {
            IdList::Order => Number::Order(k),
            IdList::Muted => Number::Muted(k),
        }
    }

    fn length(self) -> Number
        ensures { (s : List ℕ) (n : ℕ) → set_number s result n ≡ set_length self s n }
    {
        match self {
            IdList::Order => Number::OrderLength,
            IdList::Muted => Number::MutedLength,
        }
    }

    /// Stores some ids as the list.
    #[tactic(auto, using(crate::proofs::Storing::list_on, crate::proofs::Storing::list_end))]
    pub fn put(self, state: &mut Words, ids: &[usize])
        requires low { All (λ x. x < IDS) ids.now }
        requires few { length ids.now ≤ IDS }
        ensures { state.new ≡ put_list self state.old ids.now 0 }
    {
        for (index, x) in ids.iter().enumerate() {
            self.place(Below { index }).set(state, *x);
        }
        self.length().set(state, ids.len());
    }
}
