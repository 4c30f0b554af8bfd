//! A name for the value of `coro.begin`.

ghost use Rattle.std.specs.Prelude.{◌≡◌, ◌++◌, ◌∷◌, [], IfOk, map, length};
ghost use Rattle.pass_early.specs.BeginName.{named_instr, named_block, begin_name, begin_named};

use ir_base::{Data, Items, Name, Text, ValueId};
use ir_model::{Block, Callee, Function, Instr, Intrinsic};
use std::alloc::{AllocError, Global};

fn named_instr(alloc: Global, id: ValueId, instr: &Instr) -> Result<Instr, AllocError>
    ensures { IfOk result (λ x. x ≡ named_instr id instr.now) }
{
    match instr {
        Instr::Call {
            result: _,
            must_tail,
            ty,
            callee: Callee::Intrinsic(Intrinsic::CoroBegin),
            args,
        } => Ok(Instr::Call {
            result: Some(id),
            must_tail: *must_tail,
            ty: Data::copied(ty, alloc)?,
            callee: Callee::Intrinsic(Intrinsic::CoroBegin),
            args: args.copied(alloc)?,
        }),
        _ => instr.copied(alloc),
    }
}

fn named_instrs(alloc: Global, id: ValueId, instrs: &[Instr]) -> Result<Items<Instr>, AllocError>
    ensures { IfOk result (λ x. x ≡ map (named_instr id) instrs.now) }
{
    let mut all = Items::new(alloc);
    for instr in instrs {
        all.push(named_instr(alloc, id, instr)?)?;
    }
    Ok(all)
}

fn named_blocks(alloc: Global, id: ValueId, blocks: &[Block]) -> Result<Items<Block>, AllocError>
    ensures { IfOk result (λ x. x ≡ map (named_block id) blocks.now) }
{
    let mut all = Items::new(alloc);
    for block in blocks {
        all.push(Block {
            label: block.label,
            phis: block.phis.copied(alloc)?,
            instrs: named_instrs(alloc, id, block.instrs.as_slice())?,
            term: block.term.copied(alloc)?,
        })?;
    }
    Ok(all)
}

#[tactic(auto, unfolding(crate::specs::BeginName::begin_name))]
fn begin_name(alloc: Global) -> Result<Name, AllocError>
    ensures { IfOk result (λ n. n ≡ begin_name) }
{
    Ok(Name::Text(Text::from_bytes(alloc, b"$c.begin")?))
}

/// The coroutine with a name for begin's value.
pub fn begin_named(alloc: Global, function: &Function) -> Result<Function, AllocError>
    ensures { IfOk result (λ x. x ≡ begin_named function.now) }
{
    let id = function.names.len();
    let mut names = function.names.copied(alloc)?;
    names.push(begin_name(alloc)?)?;
    Ok(Function {
        name: function.name.copied(alloc)?,
        result: Data::copied(&function.result, alloc)?,
        params: function.params.copied(alloc)?,
        coroutine: function.coroutine,
        blocks: named_blocks(alloc, id, function.blocks.as_slice())?,
        names,
    })
}
