// Rows of channels: a row for each port of each id, and the spare row.
ghost use Rattle.std.specs.Prelude.{◌≡◌, ◌<◌};
ghost use Rattle.layout.specs.Sizes.{port_room};
ghost use Rattle.layout.specs.Row.{port_row};

use crate::index::{Below, Id, Row};
use crate::{NODE_ROWS, PORTS};

/// The side of a node that a port is on.
#[derive(Clone, Copy, Debug, PartialEq, Eq)]
pub enum Side {
    Input,
    Output,
}

/// The row of a port of a node. Only this function asks that a port is below its bound, so that is a clause and no type.
pub fn of(id: Id, side: Side, port: usize) -> Row
    requires { port < port_room }
    ensures { result.index ≡ port_row side id.index port }
{
    let first = match side {
        Side::Input => 0,
        Side::Output => PORTS,
    };
    Below {
        index: NODE_ROWS * id.index + first + port,
    }
}
