//! The pass over a function.

ghost use Rattle.std.specs.Prelude.{◌≡◌, IfOk};
ghost use Rattle.pass_exits.specs.ExitBlocks.{with_exit_blocks};

use crate::blocks::exit_blocks_of;
use crate::exits::exits_of;
use crate::leaving::leaving_of;
use crate::names::push_exit_names;
use ir_base::Data;
use ir_model::Function;
use std::alloc::{AllocError, Global};

/// The function with a block on each edge that leaves a window ("Coroutines in LLVM", "llvm.coro.save"), which holds a jump
/// to where the edge led; a suspend's own edges get none. Phis stay, so no such edge is to lead to a block with phis.
pub fn with_exit_blocks(alloc: Global, function: &Function) -> Result<Function, AllocError>
    ensures { IfOk result (λ f. f ≡ with_exit_blocks function.now) }
{
    let leaving = leaving_of(alloc, function)?;
    let exits = exits_of(alloc, function, &leaving)?;
    let mut names = function.names.copied(alloc)?;
    push_exit_names(alloc, &mut names, exits.as_slice())?;
    Ok(Function {
        name: function.name.copied(alloc)?,
        result: Data::copied(&function.result, alloc)?,
        params: function.params.copied(alloc)?,
        coroutine: function.coroutine,
        blocks: exit_blocks_of(alloc, function, &leaving)?,
        names,
    })
}
