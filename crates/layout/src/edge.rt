// The stored edges, the oldest first.
ghost use Rattle.std.specs.Prelude.{◌≡◌};
ghost use Rattle.layout.specs.Edge.{Narrow, edge_at, set_edge_at};

use crate::Words;
use crate::field::Number;
use crate::index::EdgePlace;

/// A connection from an output of one node to an input of another; input HIDDEN carries no samples.
#[derive(Clone, Copy, Debug, PartialEq, Eq)]
pub struct Edge {
    pub source: usize,
    pub output: usize,
    pub target: usize,
    pub input: usize,
}

impl Edge {
    /// The edge stored at a place.
    pub fn read(state: &Words, e: EdgePlace) -> Edge
        ensures { result ≡ edge_at state.now e.index }
    {
        Edge {
            source: Number::Source(e).get(state),
            output: Number::Output(e).get(state),
            target: Number::Target(e).get(state),
            input: Number::Input(e).get(state),
        }
    }

    /// Stores the edge at a place. The clause asks what `Number::set` asks, of four numbers.
    pub fn write(self, state: &mut Words, e: EdgePlace)
        requires { Narrow self }
        ensures { state.new ≡ set_edge_at state.old e.index self }
    {
        Number::Source(e).set(state, self.source);
        Number::Output(e).set(state, self.output);
        Number::Target(e).set(state, self.target);
        Number::Input(e).set(state, self.input);
    }
}
