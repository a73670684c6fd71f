// What a pass notes.
ghost use Rattle.std.specs.Prelude.{◌+◌, ◌<◌, ◌≤◌};
ghost use Rattle.std.specs.List.{All};
ghost use Rattle.arrayvec.specs.ArrayVec.{array_vec_len};
ghost use Rattle.layout.specs.Sizes.{id_room};
ghost use Rattle.ordering.specs.Walk.{unmet};

use arrayvec::ArrayVec;
use layout::IDS;

/// The notes of one pass.
#[derive(Drop)]
pub struct Pass {
    /// For each id, whether the walk came to it.
    pub met: [bool; IDS],
    /// The ids from where the walk began to where it is.
    pub path: ArrayVec<usize, IDS>,
    /// The finished ids, the first one first.
    pub finished: ArrayVec<usize, IDS>,
    /// For each id, whether it is muted.
    pub muted: [bool; IDS],
    ghost on_path: { All (λ x. x < id_room) path.items },
    ghost on_finished: { All (λ x. x < id_room) finished.items },
    ghost room: { array_vec_len path + array_vec_len finished + unmet met ≤ id_room },
}
