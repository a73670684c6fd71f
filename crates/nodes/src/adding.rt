// A node added: its words, one silent channel in each of its ports, and its place in the order.
ghost use Rattle.std.specs.Prelude.{◌≡◌, ℕ, ◌<◌, ◌≤◌, ◌^◌, false};
ghost use Rattle.layout.specs.Sizes.{id_room, port_room};
ghost use Rattle.layout.specs.Header.{is_dirty, order_length};
ghost use Rattle.layout.specs.Row.{port_row, cap_of};
ghost use Rattle.pool.specs.Rows.{Held};
ghost use Rattle.nodes.specs.Nodes.{Addable, setting_written, node_written, ports_silent, appended, node_added};
ghost use Rattle.nodes.specs.Kept.{Added};

use layout::Words;
use layout::field::{Flag, Number};
use layout::index::{Below, Id};
use layout::row::{Side, of};
use layout::setting::{Setting, SettingWords};
use pool::row;

// Writes the channel setting of a node.
#[tactic(auto, unfolding(crate::specs::Nodes::setting_written))]
fn write_setting(state: &mut Words, id: Id, setting: SettingWords)
    requires count { setting.count < 2 ^ 32 }
    requires mode { setting.mode < 2 ^ 32 }
    requires interpretation { setting.interpretation < 2 ^ 32 }
    ensures { state.new ≡ setting_written state.old id.index setting }
{
    Number::Count(id).set(state, setting.count);
    Number::Mode(id).set(state, setting.mode);
    Number::Interpretation(id).set(state, setting.interpretation);
}

// Writes the words of a node that begins.
#[tactic(auto, using(crate::proofs::Silencing::fresh_small), unfolding(crate::specs::Nodes::node_written))]
fn write_node(state: &mut Words, id: Id, inputs: usize, outputs: usize, side_effects: bool)
    requires inputs { inputs ≤ port_room }
    requires outputs { outputs ≤ port_room }
    ensures { state.new ≡ node_written state.old id.index inputs outputs side_effects }
{
    let setting = SettingWords::from(Setting::fresh(Number::Ceiling.get(state)));
    Flag::Present(id).set(state, true);
    Number::Inputs(id).set(state, inputs);
    Number::Outputs(id).set(state, outputs);
    write_setting(state, id, setting);
    Flag::Dropped(id).set(state, false);
    Flag::Breaker(id).set(state, false);
    Flag::HasInputs(id).set(state, false);
    Flag::SideEffects(id).set(state, side_effects);
}

// The first ports of a side become one silent channel each.
#[tactic(auto, using(crate::proofs::Silencing::silencing))]
fn silence_ports(state: &mut Words, id: Id, side: Side, count: usize)
    requires held { Held state.old }
    requires few { count ≤ port_room }
    requires some { (p : ℕ) → p < count → 0 < cap_of state.old (port_row side id.index p) }
    ensures { state.new ≡ ports_silent side id.index state.old count 0 }
{
    for port in 0..count {
        row::clear(state, of(id, side, port));
    }
}

// A node becomes the last in the order, unless the order is to be made anew.
#[tactic(auto, unfolding(crate::specs::Nodes::appended))]
fn append(state: &mut Words, id: Id)
    requires { is_dirty state.old ≡ false → order_length state.old < id_room }
    ensures { state.new ≡ appended state.old id.index }
{
    if !Flag::Dirty.get(state) {
        let length = Number::OrderLength.get(state);
        Number::Order(Below { index: length }).set(state, id.index);
        Number::OrderLength.set(state, length + 1);
    }
}

/// Adds a node, which begins with a fresh channel setting and one silent channel in each port.
#[tactic(auto, using(crate::proofs::Added::adding_node), unfolding(crate::specs::Nodes::node_added))]
pub fn add_node(state: &mut Words, id: Id, inputs: usize, outputs: usize, side_effects: bool)
    requires { Addable state.old id.index inputs outputs }
    ensures adds { state.new ≡ node_added state.old id.index inputs outputs side_effects }
    ensures added { Added state.old state.new id.index inputs outputs side_effects }
{
    write_node(state, id, inputs, outputs, side_effects);
    silence_ports(state, id, Side::Input, inputs);
    silence_ports(state, id, Side::Output, outputs);
    append(state, id);
}
