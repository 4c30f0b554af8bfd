//! The suspends of a function, by the tokens that they take.

ghost use Rattle.std.specs.Prelude.{◌≡◌, ℕ, List, IfOk, None, Some, false, replicate, ◌==◌, ◌++◌};
ghost use Rattle.std.specs.Option.{option_map_or};
ghost use Rattle.ir_paths.specs.Windows.{is_suspend_of, points_from};
ghost use Rattle.ir_paths.specs.declared.point.Point.{Point as ThePoint};
ghost use Rattle.run_source_tables.specs.Suspends.{HasFirst, HasSuspends, noted};

use crate::shape::{is_call_of, local_at};
use ir_base::{BlockId, Items, ValueId};
use ir_model::{Function, Instr, Intrinsic};
use ir_paths::Point;
use std::alloc::{AllocError, Global};

/// The token that a suspend takes, none of another instruction.
fn token_of(instr: &Instr) -> Option<ValueId>
    ensures { (n : ℕ) → is_suspend_of (Some n) instr.now ≡ option_map_or (λ token. n == token) result false }
{
    match instr {
        Instr::Call { args, .. } => {
            if is_call_of(Intrinsic::CoroSuspend, instr) {
                local_at(args.as_slice(), 0)
            } else {
                None
            }
        }
        _ => None,
    }
}

/// Notes the point of a suspend by its token, if there is one.
fn note(table: &mut Items<Option<Point>>, token: Option<ValueId>, suspend: Point)
    ensures { table.new ≡ noted table.old token suspend }
{
    match token {
        None => {}
        Some(token) => table.set(token, Some(suspend)),
    }
}

/// Notes the suspends of a block, from the last on.
fn note_block(table: &mut Items<Option<Point>>, block: BlockId, instrs: &[Instr])
    ensures { (rest : ℕ → List ThePoint) → HasFirst table.old rest → HasFirst table.new (λ n. points_from (is_suspend_of (Some n)) block 0 instrs.now ++ rest n) }
{
    let mut at = instrs.len();
    while at > 0 {
        at -= 1;
        let token = token_of(&instrs[at]);
        note(table, token, Point { block, at });
    }
}

fn no_suspends(alloc: Global, count: usize) -> Result<Items<Option<Point>>, AllocError>
    ensures { IfOk result (λ all. all ≡ replicate count None) }
{
    let none: Option<Point> = None;
    Ok(Items::from_vec(vec![in alloc; none; count]?))
}

/// For each name of a function the first suspend that takes it as its token.
pub fn suspends_by_token(
    alloc: Global,
    function: &Function,
) -> Result<Items<Option<Point>>, AllocError>
    ensures { IfOk result (λ table. HasSuspends function.now table) }
{
    let blocks = function.blocks.as_slice();
    let mut table = no_suspends(alloc, function.names.len())?;
    let mut block = blocks.len();
    while block > 0 {
        block -= 1;
        note_block(&mut table, block, blocks[block].instrs.as_slice());
    }
    Ok(table)
}
