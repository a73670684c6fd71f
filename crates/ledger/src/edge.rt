// The stored edges end at present nodes and at ports that these have.
ghost use Rattle.std.specs.Prelude.{◌↔◌, IsTrue};
ghost use Rattle.ledger.specs.Ranges.{HeaderInRange};
ghost use Rattle.ledger.specs.Tests.{EdgeKept, EdgesKept};

use layout::edge::Edge;
use layout::field::{Flag, Number};
use layout::index::{Below, EdgePlace};
use layout::{HIDDEN, IDS, Words};

// The ends of an edge and its ports.
fn edge(state: &Words, e: EdgePlace) -> bool
    ensures { IsTrue result ↔ EdgeKept state.now e.index }
{
    let edge = Edge::read(state, e);
    if edge.source >= IDS || edge.target >= IDS {
        return false;
    }
    let source = Below { index: edge.source };
    let target = Below { index: edge.target };
    Flag::Present(source).get(state)
        && Flag::Present(target).get(state)
        && edge.output < Number::Outputs(source).get(state)
        && (edge.input == HIDDEN || edge.input < Number::Inputs(target).get(state))
}

// Every stored edge.
pub(crate) fn edges(state: &Words) -> bool
    requires { HeaderInRange state.now }
    ensures { IsTrue result ↔ EdgesKept state.now }
{
    for index in 0..Number::EdgeCount.get(state) {
        if !edge(state, Below { index }) {
            return false;
        }
    }
    true
}
