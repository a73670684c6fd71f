// What an edit says of one node: its handle, its mark and its channel setting.
ghost use Rattle.std.specs.Prelude.{◌≡◌, ◌<◌, ◌^◌, true};
ghost use Rattle.layout.specs.Node.{set_dropped, set_breaker, set_count, set_mode, set_interpretation};
ghost use Rattle.layout.specs.Setting.{mode_number, interpretation_number};
ghost use Rattle.layout.specs.Views.{node_of};
ghost use Rattle.pool.specs.Rows.{Held};
ghost use Rattle.nodes.specs.Kept.{ButNode};

use layout::Words;
use layout::field::{Flag, Number};
use layout::index::Id;
use layout::setting::{ChannelCountMode, ChannelInterpretation};

/// The control side dropped the node's handle.
#[tactic(auto, using(crate::proofs::NodeLaws::dropping))]
pub fn drop_handle(state: &mut Words, id: Id)
    ensures writes { state.new ≡ set_dropped state.old id.index true }
    ensures node { node_of state.new id.index ≡ record (node_of state.old id.index) { dropped = true } }
    ensures rest { ButNode id.index state.old state.new }
    ensures held { Held state.old → Held state.new }
{
    Flag::Dropped(id).set(state, true);
}

/// The node is marked as a breaker of loops.
#[tactic(auto, using(crate::proofs::NodeLaws::marking))]
pub fn mark_breaker(state: &mut Words, id: Id)
    ensures writes { state.new ≡ set_breaker state.old id.index true }
    ensures node { node_of state.new id.index ≡ record (node_of state.old id.index) { breaker = true } }
    ensures rest { ButNode id.index state.old state.new }
    ensures held { Held state.old → Held state.new }
{
    Flag::Breaker(id).set(state, true);
}

/// The channel count of the node's setting.
#[tactic(auto, using(crate::proofs::NodeLaws::counting))]
pub fn set_count(state: &mut Words, id: Id, count: usize)
    requires { count < 2 ^ 32 }
    ensures writes { state.new ≡ set_count state.old id.index count }
    ensures node { node_of state.new id.index ≡ record (node_of state.old id.index) { setting = record ((node_of state.old id.index).setting) { count = count } } }
    ensures rest { ButNode id.index state.old state.new }
    ensures held { Held state.old → Held state.new }
{
    Number::Count(id).set(state, count);
}

/// The count mode of the node's setting.
#[tactic(auto, using(crate::proofs::NodeLaws::setting_mode))]
pub fn set_mode(state: &mut Words, id: Id, mode: ChannelCountMode)
    ensures writes { state.new ≡ set_mode state.old id.index (mode_number mode) }
    ensures node { node_of state.new id.index ≡ record (node_of state.old id.index) { setting = record ((node_of state.old id.index).setting) { mode = mode_number mode } } }
    ensures rest { ButNode id.index state.old state.new }
    ensures held { Held state.old → Held state.new }
{
    Number::Mode(id).set(state, mode as usize);
}

/// The channel interpretation of the node's setting.
#[tactic(auto, using(crate::proofs::NodeLaws::setting_interpretation))]
pub fn set_interpretation(state: &mut Words, id: Id, interpretation: ChannelInterpretation)
    ensures writes { state.new ≡ set_interpretation state.old id.index (interpretation_number interpretation) }
    ensures node { node_of state.new id.index ≡ record (node_of state.old id.index) { setting = record ((node_of state.old id.index).setting) { interpretation = interpretation_number interpretation } } }
    ensures rest { ButNode id.index state.old state.new }
    ensures held { Held state.old → Held state.new }
{
    Number::Interpretation(id).set(state, interpretation as usize);
}
