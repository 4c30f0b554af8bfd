//! Instructions by their places.

ghost use Rattle.std.specs.Prelude.{◌≡◌};
ghost use Rattle.pass_elide.specs.Places.{call_place_of};

use ir_base::{BlockId, FuncId, Item, Place};

/// An instruction of a function. Its position counts the phis of its block.
#[derive(Clone, Copy, Debug, PartialEq, Eq, Hash, Drop)]
pub struct CallPlace {
    pub func: FuncId,
    pub block: BlockId,
    pub at: usize,
}

/// The instruction of a place, where it is that of one.
pub fn call_place_of(place: Place) -> Option<CallPlace>
    ensures { result ≡ call_place_of place }
{
    match place.item {
        Item::Type(_) | Item::Global(_) | Item::Declaration(_) => None,
        Item::Function(func) => match place.block {
            None => None,
            Some(block) => match place.instr {
                None => None,
                Some(at) => Some(CallPlace { func, block, at }),
            },
        },
    }
}
