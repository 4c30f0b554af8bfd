//! The suspends that take the tokens of saves.

ghost use Rattle.std.specs.Prelude.{◌≡◌, ◌==◌, ℕ, IfOk, OnOk, Some, [], ◌∷◌, if◌then◌else◌};
ghost use Rattle.std.specs.HashMap.{get};
ghost use Rattle.ir_model.specs.Names.{is_local};
ghost use Rattle.flow_points.specs.ir_paths.Windows.{is_suspend_of, operand_at, points_from};
ghost use Rattle.flow_facts.specs.Tokens.{FindsSuspends, is_token, or_head};

use flow_points::ir_paths_library::Point;
use ir_base::{BlockId, ValueId};
use ir_calls::is_call_of;
use ir_model::{Arg, Function, Instr, Intrinsic, Operand};
use std::alloc::{AllocError, Global};
use std::collections::HashMap;

/// For a token the first suspend that takes it.
pub type Tokens = HashMap<ValueId, Point>;

/// The first of the arguments, where it is a local.
fn first_local(args: &[Arg]) -> Option<ValueId>
    ensures { (t : ℕ) → is_local t (operand_at args.now 0) ≡ is_token t result }
{
    match args.get(0) {
        Some(
            Arg {
                value: Operand::Local(name),
                ..
            },
        ) => Some(*name),
        _ => None,
    }
}

/// The token that a suspend takes.
fn token_of(instr: &Instr) -> Option<ValueId>
    ensures { (t : ℕ) → is_suspend_of (Some t) instr.now ≡ is_token t result }
{
    if !is_call_of(Intrinsic::CoroSuspend, instr) {
        return None;
    }
    match instr {
        Instr::Call { args, .. } => first_local(args.as_slice()),
        _ => None,
    }
}

/// Notes a suspend, if none was noted that takes its token.
fn note(tokens: &mut Tokens, token: ValueId, point: Point) -> Result<(), AllocError>
    ensures { OnOk result ((t : ℕ) → get ◌==◌ tokens.new t ≡ or_head (get ◌==◌ tokens.old t) (if t == token then point ∷ [] else [])) }
{
    if tokens.get(&token).is_none() {
        tokens.insert(token, point)?;
    }
    Ok(())
}

fn note_all(tokens: &mut Tokens, block: BlockId, instrs: &[Instr]) -> Result<(), AllocError>
    ensures { OnOk result ((t : ℕ) → get ◌==◌ tokens.new t ≡ or_head (get ◌==◌ tokens.old t) (points_from (is_suspend_of (Some t)) block 0 instrs.now)) }
{
    for at in 0..instrs.len() {
        match token_of(&instrs[at]) {
            None => (),
            Some(token) => note(tokens, token, Point { block, at })?,
        }
    }
    Ok(())
}

/// The suspends of a function by their tokens.
pub fn tokens_of(alloc: Global, function: &Function) -> Result<Tokens, AllocError>
    ensures { IfOk result (λ tokens. FindsSuspends function.now tokens) }
{
    let mut tokens = HashMap::new(alloc);
    let blocks = function.blocks.as_slice();
    for block in 0..blocks.len() {
        note_all(&mut tokens, block, blocks[block].instrs.as_slice())?;
    }
    Ok(tokens)
}
