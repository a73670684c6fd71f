// The words of the state by name: each is a number or a flag, with one reader and one writer for all.
ghost use Rattle.std.specs.Prelude.{◌≡◌, ◌<◌, ◌+◌, ◌*◌, ◌^◌, ℕ, Bool, List, slice_index, slice_set};
ghost use Rattle.layout.specs.Sizes.{node_part, node_words, edge_part, edge_words, flag_at, set_flag};
ghost use Rattle.layout.specs.Number.{number_of, set_number};
ghost use Rattle.layout.specs.Flag.{flag_of, put_flag};

use crate::index::{Channel, EdgePlace, Id, ListPlace, Row, Slot};
use crate::{
    CHANNEL, CHANNELS, EDGE, EDGE_WORDS, HOLDER, MUTED, NODE, NODE_WORDS, ORDER, PLACE, STATE,
    Words,
};

/// A number that the state holds.
#[derive(Clone, Copy, Debug, PartialEq, Eq)]
pub enum Number {
    /// The channel ceiling C.
    Ceiling,
    /// The number of slots S.
    Slots,
    /// The place in the order of the offered node; in an open quantum those before it are finished.
    Next,
    /// How many ids the order has.
    OrderLength,
    /// How many ids the muted list has.
    MutedLength,
    /// How many edges are stored.
    EdgeCount,
    /// The id at a place of the order.
    Order(ListPlace),
    /// The id at a place of the muted list.
    Muted(ListPlace),
    /// How many inputs the node has.
    Inputs(Id),
    /// How many outputs the node has.
    Outputs(Id),
    /// The channel count of the node's setting.
    Count(Id),
    /// The count mode of the node's setting, as a number.
    Mode(Id),
    /// The channel interpretation of the node's setting, as a number.
    Interpretation(Id),
    /// The node that the stored edge leaves.
    Source(EdgePlace),
    /// The output that the stored edge leaves by.
    Output(EdgePlace),
    /// The node that the stored edge enters.
    Target(EdgePlace),
    /// The input that the stored edge enters by.
    Input(EdgePlace),
    /// How many channels name the slot; slot 0 has no count.
    Holders(Slot),
    /// How many channels the row has.
    Channels(Row),
    /// Which slot the channel of the row names.
    Place(Row, Channel),
}

// Where the words of a node begin, and of an edge; one function for both would take its two constants at each call.
fn node(id: Id) -> usize
    ensures { result ≡ node_part + node_words * id.index }
{
    NODE + NODE_WORDS * id.index
}

fn edge(e: EdgePlace) -> usize
    ensures { result ≡ edge_part + edge_words * e.index }
{
    EDGE + EDGE_WORDS * e.index
}

impl Number {
    fn word(self) -> usize
        ensures reads { (s : List ℕ) → slice_index s result ≡ number_of s self }
        ensures writes { (s : List ℕ) (v : ℕ) → slice_set s result v ≡ set_number s self v }
        ensures within { result < STATE }
    {
        match self {
            Number::Ceiling => 0,
            Number::Slots => 1,
            Number::Next => 4,
            Number::OrderLength => 5,
            Number::MutedLength => 6,
            Number::EdgeCount => 7,
            Number::Order(k) => ORDER + k.index,
            Number::Muted(k) => MUTED + k.index,
            Number::Inputs(id) => node(id) + 1,
            Number::Outputs(id) => node(id) + 2,
            Number::Count(id) => node(id) + 3,
            Number::Mode(id) => node(id) + 4,
            Number::Interpretation(id) => node(id) + 5,
            Number::Source(e) => edge(e),
            Number::Output(e) => edge(e) + 1,
            Number::Target(e) => edge(e) + 2,
            Number::Input(e) => edge(e) + 3,
            Number::Holders(slot) => HOLDER + slot.index,
            Number::Channels(row) => CHANNEL + row.index,
            Number::Place(row, channel) => PLACE + CHANNELS * row.index + channel.index,
        }
    }

    /// The number that the state holds.
    pub fn get(self, state: &Words) -> usize
        ensures { result ≡ number_of state.now self }
    {
        // The library has no `From` between a word and an index, and the check proves that the cast loses nothing; so too below.
        state[self.word()] as usize
    }

    /// Writes the number. Callers count in `usize`, so the clause stands here and not a cast at each of them.
    pub fn set(self, state: &mut Words, v: usize)
        requires { v < 2 ^ 32 }
        ensures { state.new ≡ set_number state.old self v }
    {
        state[self.word()] = v as u32;
    }
}

/// A yes or a no that the state holds.
#[derive(Clone, Copy, Debug, PartialEq, Eq)]
pub enum Flag {
    /// Whether the order is to be made anew.
    Dirty,
    /// Whether a quantum is open.
    Open,
    /// Whether there is a node under the id.
    Present(Id),
    /// Whether the control side dropped the node's handle.
    Dropped(Id),
    /// Whether the node is marked as a breaker of loops.
    Breaker(Id),
    /// Whether a signal was delivered to the node since its last finish.
    HasInputs(Id),
    /// Whether the node has side effects, told when it was added.
    SideEffects(Id),
}

// As `Number` reads and writes; one trait for both would need the value's type and its way to a word as members, for two impls.
impl Flag {
    fn word(self) -> usize
        ensures reads { (s : List ℕ) → flag_at s result ≡ flag_of s self }
        ensures writes { (s : List ℕ) (v : Bool) → set_flag s result v ≡ put_flag s self v }
        ensures within { result < STATE }
    {
        match self {
            Flag::Dirty => 2,
            Flag::Open => 3,
            Flag::Present(id) => node(id),
            Flag::Dropped(id) => node(id) + 6,
            Flag::Breaker(id) => node(id) + 7,
            Flag::HasInputs(id) => node(id) + 8,
            Flag::SideEffects(id) => node(id) + 9,
        }
    }

    /// Whether the state says yes: it says no only at 0.
    #[tactic(auto, unfolding(crate::specs::Sizes::flag_at))]
    pub fn get(self, state: &Words) -> bool
        ensures { result ≡ flag_of state.now self }
    {
        state[self.word()] != 0
    }

    /// Writes yes as 1 and no as 0.
    #[tactic(auto, unfolding(crate::specs::Sizes::set_flag))]
    pub fn set(self, state: &mut Words, v: bool)
        ensures { state.new ≡ put_flag state.old self v }
    {
        state[self.word()] = u32::from(v);
    }
}
