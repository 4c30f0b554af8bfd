//! The parts of a coroutine.

ghost use Rattle.std.specs.Prelude.{◌≡◌, ◌+◌, ◌-◌, IfOk, OnOk, ◌++◌, ◌∷◌, [], map, codes};
ghost use Rattle.ir_base.specs.declared.name.Name.{Name as TheName};
ghost use Rattle.ir_model.specs.Names.{noalloc_of, numbered};
ghost use Rattle.pass_split.specs.Pieces.{next_after, pieces_of, piecing_of, first_piecing, all_pieces};
ghost use Rattle.pass_split.specs.Parts.{goes_on_at, is_entered, case_of, cases_from, entry_instrs, entry_term, entry_block, none_block, back_block, back_blocks, done_block, later_head, head_blocks, saved_name, back_name, pass_name, names_of_suspend, begun_mark, done_mark, entry_mark, none_mark, slot_mark, index_mark, given_mark, frame_mark, label_names, suspend_names, instr_names, mark_names, names_of, origins_for, part_blocks, part_names, ramp_part, ramp_of, given_params, given_ramp_of, later_part, given_parts, parts_of, plain_shape, plain_of};

use crate::origin::Origin;
use crate::origins::set_origins;
use crate::phis::{going_on, pieced_phis};
use crate::pieces::{all_pieces, redirected, with_instrs};
use crate::piecing::Piecing;
use crate::reached::{is_flagged, pruned, reached};
use ir_base::{Data, Items, Name, SuspendId, Text, ValueId};
use ir_model::{
    Arg, Block, Case, Function, Instr, IntWidth, IrType, Operand, Param, Terminator, numbered_name,
};
use pass_front::allocas_of;
use pass_intrinsics::{
    Part, Shape, SuspendPoint, address, goes_on, index_bytes, later, number_arg, part_name,
};
use std::alloc::{AllocError, Global};

fn goes_on_at(part: Part, point: &SuspendPoint) -> bool
    ensures { result ≡ goes_on_at part point.now }
{
    match part {
        Part::Resume => !point.is_final,
        Part::Ramp | Part::GivenRamp | Part::Destroy | Part::Cleanup => true,
    }
}

fn is_entered(flags: &Items<bool>, part: Part, point: &SuspendPoint) -> bool
    ensures { result ≡ is_entered flags.now part point.now }
{
    if is_flagged(flags, point.block) {
        goes_on_at(part, point)
    } else {
        false
    }
}

fn case_of(shape: &Shape, suspend: SuspendId) -> Result<Case, AllocError>
    ensures { IfOk result (λ k. k ≡ case_of shape.now suspend) }
{
    Ok(Case {
        arg: number_arg(shape.width, i128::from(suspend as u64)),
        target: shape.back_label(suspend)?,
    })
}

fn cases_of(
    alloc: Global,
    shape: &Shape,
    flags: &Items<bool>,
    part: Part,
    suspends: &[SuspendPoint],
) -> Result<Items<Case>, AllocError>
    ensures { IfOk result (λ x. x ≡ cases_from shape.now flags.now part 0 suspends.now) }
{
    let mut all = Items::new(alloc);
    let mut number = 0;
    for point in suspends {
        if is_entered(flags, part, point) {
            all.push(case_of(shape, number)?)?;
        }
        number = later(number, 1)?;
    }
    Ok(all)
}

fn entry_instrs(alloc: Global, shape: &Shape, blocks: &[Block]) -> Result<Items<Instr>, AllocError>
    ensures { IfOk result (λ x. x ≡ entry_instrs shape.now blocks.now) }
{
    let slot = shape.slot_name()?;
    let mut all = allocas_of(alloc, blocks)?;
    let distance = i128::from(shape.index);
    all.push(address(alloc, slot, Operand::Local(shape.begin), distance)?)?;
    all.push(Instr::Load {
        result: shape.index_name()?,
        ty: IrType::int(shape.width),
        address: Operand::Local(slot),
        align: index_bytes(shape.width),
    })?;
    Ok(all)
}

fn entry_block(
    alloc: Global,
    shape: &Shape,
    flags: &Items<bool>,
    part: Part,
    blocks: &[Block],
) -> Result<Block, AllocError>
    ensures { IfOk result (λ b. b ≡ entry_block shape.now flags.now part blocks.now) }
{
    Ok(Block {
        label: shape.entry_label()?,
        phis: Items::new(alloc),
        instrs: entry_instrs(alloc, shape, blocks)?,
        term: Terminator::Switch {
            arg: Arg {
                ty: IrType::int(shape.width),
                value: Operand::Local(shape.index_name()?),
            },
            default: shape.none_label()?,
            cases: cases_of(alloc, shape, flags, part, shape.suspends.as_slice())?,
        },
    })
}

fn none_block(alloc: Global, shape: &Shape) -> Result<Block, AllocError>
    ensures { IfOk result (λ b. b ≡ none_block shape.now) }
{
    Ok(Block {
        label: shape.none_label()?,
        phis: Items::new(alloc),
        instrs: Items::new(alloc),
        term: Terminator::Unreachable,
    })
}

fn back_block(
    alloc: Global,
    shape: &Shape,
    part: Part,
    suspend: SuspendId,
    point: &SuspendPoint,
) -> Result<Block, AllocError>
    ensures { IfOk result (λ b. b ≡ back_block shape.now part suspend point.now) }
{
    let target = match going_on(part, point) {
        None => 0,
        Some(target) => target,
    };
    Ok(Block {
        label: shape.back_label(suspend)?,
        phis: Items::new(alloc),
        instrs: Items::new(alloc),
        term: Terminator::Jump(redirected(shape, target)?),
    })
}

fn push_back_blocks(
    alloc: Global,
    all: &mut Items<Block>,
    shape: &Shape,
    part: Part,
    suspends: &[SuspendPoint],
) -> Result<(), AllocError>
    ensures { OnOk result (all.new ≡ all.old ++ back_blocks shape.now part 0 suspends.now) }
{
    let mut number = 0;
    for point in suspends {
        all.push(back_block(alloc, shape, part, number, point)?)?;
        number = later(number, 1)?;
    }
    Ok(())
}

fn later_head(
    alloc: Global,
    shape: &Shape,
    flags: &Items<bool>,
    part: Part,
    blocks: &[Block],
) -> Result<Items<Block>, AllocError>
    ensures { IfOk result (λ x. x ≡ later_head shape.now flags.now part blocks.now) }
{
    let mut all = Items::new(alloc);
    all.push(entry_block(alloc, shape, flags, part, blocks)?)?;
    all.push(none_block(alloc, shape)?)?;
    push_back_blocks(alloc, &mut all, shape, part, shape.suspends.as_slice())?;
    Ok(all)
}

fn head_blocks(
    alloc: Global,
    shape: &Shape,
    part: Part,
    function: &Function,
) -> Result<Items<Block>, AllocError>
    ensures { IfOk result (λ x. x ≡ head_blocks shape.now part function.now) }
{
    if !goes_on(part) {
        return Ok(Items::new(alloc));
    }
    let flags = reached(alloc, function)?;
    later_head(alloc, shape, &flags, part, function.blocks.as_slice())
}

fn done_block(alloc: Global, shape: &Shape) -> Result<Block, AllocError>
    ensures { IfOk result (λ b. b ≡ done_block shape.now) }
{
    Ok(Block {
        label: shape.done_label()?,
        phis: Items::new(alloc),
        instrs: Items::new(alloc),
        term: Terminator::Jump(shape.end),
    })
}

/// A block of the source on its way into the pieces, with all its instructions.
fn piecing_of(
    alloc: Global,
    shape: &Shape,
    part: Part,
    origins: &[Origin],
    next: ValueId,
    block: &Block,
) -> Result<Piecing, AllocError>
    ensures { IfOk result (λ p. p ≡ piecing_of shape.now part origins.now next block.now) }
{
    let first = Piecing {
        whole: Items::new(alloc),
        label: block.label,
        phis: pieced_phis(
            alloc,
            shape,
            part,
            origins,
            block.label,
            block.phis.as_slice(),
        )?,
        instrs: Items::new(alloc),
        ended: false,
        next,
    };
    with_instrs(
        alloc,
        shape,
        part,
        &block.term,
        first,
        block.instrs.as_slice(),
    )
}

fn push_blocks(all: &mut Items<Block>, more: Items<Block>) -> Result<(), AllocError>
    ensures { OnOk result (all.new ≡ all.old ++ more) }
{
    for block in more.into_vec() {
        all.push(block)?;
    }
    Ok(())
}

/// Adds the pieces of the blocks, and gives the next new name.
fn push_pieces(
    alloc: Global,
    all: &mut Items<Block>,
    shape: &Shape,
    part: Part,
    origins: &[Origin],
    first: ValueId,
    blocks: &[Block],
) -> Result<ValueId, AllocError>
    ensures blocks { OnOk result (all.new ≡ all.old ++ pieces_of shape.now part origins.now first blocks.now) }
    ensures next { IfOk result (λ n. n ≡ next_after shape.now part origins.now first blocks.now) }
{
    let mut next = first;
    for block in blocks {
        let piecing = piecing_of(alloc, shape, part, origins, next, block)?;
        next = piecing.next;
        push_blocks(all, all_pieces(alloc, shape, piecing, &block.term)?)?;
    }
    Ok(next)
}

#[tactic(auto, unfolding(crate::specs::Parts::saved_name))]
fn saved_name(alloc: Global, suspend: SuspendId) -> Result<Name, AllocError>
    ensures { IfOk result (λ n. n ≡ saved_name suspend) }
{
    numbered_name(alloc, b"$c.saved.", suspend)
}

#[tactic(auto, unfolding(crate::specs::Parts::back_name))]
fn back_name(alloc: Global, suspend: SuspendId) -> Result<Name, AllocError>
    ensures { IfOk result (λ n. n ≡ back_name suspend) }
{
    numbered_name(alloc, b"$c.back.", suspend)
}

#[tactic(auto, unfolding(crate::specs::Parts::pass_name))]
fn pass_name(alloc: Global, suspend: SuspendId) -> Result<Name, AllocError>
    ensures { IfOk result (λ n. n ≡ pass_name suspend) }
{
    numbered_name(alloc, b"$c.pass.", suspend)
}

fn push_suspend_names(
    alloc: Global,
    names: &mut Items<Name>,
    suspend: SuspendId,
) -> Result<(), AllocError>
    ensures { OnOk result (names.new ≡ names.old ++ names_of_suspend suspend) }
{
    names.push(saved_name(alloc, suspend)?)?;
    names.push(back_name(alloc, suspend)?)?;
    names.push(pass_name(alloc, suspend)?)?;
    Ok(())
}

#[tactic(auto, using(crate::proofs::Names::suspend_names_step))]
fn suspend_names(alloc: Global, count: usize) -> Result<Items<Name>, AllocError>
    ensures { IfOk result (λ x. x ≡ suspend_names count) }
{
    let mut names = Items::new(alloc);
    for suspend in 0..count {
        push_suspend_names(alloc, &mut names, suspend)?;
    }
    Ok(names)
}

#[tactic(auto, using(crate::proofs::Names::instr_names_step))]
fn instr_names(alloc: Global, count: usize) -> Result<Items<Name>, AllocError>
    ensures { IfOk result (λ x. x ≡ instr_names count) }
{
    let mut names = Items::new(alloc);
    for k in 0..count {
        names.push(numbered_name(alloc, b"$c.", k)?)?;
    }
    Ok(names)
}

/// A name that is not numbered.
fn mark_name(alloc: Global, text: &[u8]) -> Result<Name, AllocError>
    ensures { IfOk result (λ n. n ≡ TheName.Text text.now) }
{
    Ok(Name::Text(Text::from_bytes(alloc, text)?))
}

#[tactic(auto, unfolding(crate::specs::Parts::begun_mark))]
fn begun_mark(alloc: Global) -> Result<Name, AllocError>
    ensures { IfOk result (λ n. n ≡ begun_mark) }
{
    mark_name(alloc, b"$c.begun")
}

#[tactic(auto, unfolding(crate::specs::Parts::done_mark))]
fn done_mark(alloc: Global) -> Result<Name, AllocError>
    ensures { IfOk result (λ n. n ≡ done_mark) }
{
    mark_name(alloc, b"$c.done")
}

#[tactic(auto, unfolding(crate::specs::Parts::entry_mark))]
fn entry_mark(alloc: Global) -> Result<Name, AllocError>
    ensures { IfOk result (λ n. n ≡ entry_mark) }
{
    mark_name(alloc, b"$c.entry")
}

#[tactic(auto, unfolding(crate::specs::Parts::none_mark))]
fn none_mark(alloc: Global) -> Result<Name, AllocError>
    ensures { IfOk result (λ n. n ≡ none_mark) }
{
    mark_name(alloc, b"$c.none")
}

#[tactic(auto, unfolding(crate::specs::Parts::slot_mark))]
fn slot_mark(alloc: Global) -> Result<Name, AllocError>
    ensures { IfOk result (λ n. n ≡ slot_mark) }
{
    mark_name(alloc, b"$c.slot")
}

#[tactic(auto, unfolding(crate::specs::Parts::index_mark))]
fn index_mark(alloc: Global) -> Result<Name, AllocError>
    ensures { IfOk result (λ n. n ≡ index_mark) }
{
    mark_name(alloc, b"$c.index")
}

#[tactic(auto, unfolding(crate::specs::Parts::given_mark))]
fn given_mark(alloc: Global) -> Result<Name, AllocError>
    ensures { IfOk result (λ n. n ≡ given_mark) }
{
    mark_name(alloc, b"$c.given")
}

fn push_mark_names(alloc: Global, names: &mut Items<Name>) -> Result<(), AllocError>
    ensures { OnOk result (names.new ≡ names.old ++ mark_names) }
{
    push_labels(alloc, names)?;
    names.push(slot_mark(alloc)?)?;
    names.push(index_mark(alloc)?)?;
    names.push(given_mark(alloc)?)?;
    Ok(())
}

fn push_labels(alloc: Global, names: &mut Items<Name>) -> Result<(), AllocError>
    ensures { OnOk result (names.new ≡ names.old ++ label_names) }
{
    names.push(begun_mark(alloc)?)?;
    names.push(done_mark(alloc)?)?;
    names.push(entry_mark(alloc)?)?;
    names.push(none_mark(alloc)?)?;
    Ok(())
}

fn push_names(names: &mut Items<Name>, more: Items<Name>) -> Result<(), AllocError>
    ensures { OnOk result (names.new ≡ names.old ++ more) }
{
    for name in more.into_vec() {
        names.push(name)?;
    }
    Ok(())
}

#[tactic(auto, unfolding(crate::specs::Parts::frame_mark))]
fn frame_mark(alloc: Global) -> Result<Name, AllocError>
    ensures { IfOk result (λ n. n ≡ frame_mark) }
{
    mark_name(alloc, b"$c.frame")
}

/// The names of a coroutine's parts, with so many of instructions.
fn names_of(
    alloc: Global,
    shape: &Shape,
    names: &Items<Name>,
    count: usize,
) -> Result<Items<Name>, AllocError>
    ensures { IfOk result (λ x. x ≡ names_of shape.now names.now count) }
{
    let mut all = names.copied(alloc)?;
    all.set(shape.begin, frame_mark(alloc)?);
    push_mark_names(alloc, &mut all)?;
    push_names(&mut all, suspend_names(alloc, shape.suspends.len())?)?;
    push_names(&mut all, instr_names(alloc, count)?)?;
    Ok(all)
}

fn origins_for(
    alloc: Global,
    shape: &Shape,
    part: Part,
    function: &Function,
) -> Result<Items<Origin>, AllocError>
    ensures { IfOk result (λ x. x ≡ origins_for shape.now part function.now) }
{
    let count = function.names.len();
    let mut table = Items::from_vec(Vec::from_elem(alloc, Origin::Nowhere, count)?);
    set_origins(shape, part, &mut table, function.blocks.as_slice())?;
    Ok(table)
}

/// The blocks of a part, and its names.
fn body_of(
    alloc: Global,
    shape: &Shape,
    part: Part,
    function: &Function,
) -> Result<(Items<Block>, Items<Name>), AllocError>
    ensures blocks { IfOk result (λ x. x.0 ≡ part_blocks shape.now part function.now (origins_for shape.now part function.now)) }
    ensures names { IfOk result (λ x. x.1 ≡ part_names shape.now part function.now (origins_for shape.now part function.now)) }
{
    let origins = origins_for(alloc, shape, part, function)?;
    let first = shape.first_name()?;
    let source = function.blocks.as_slice();
    let mut blocks = head_blocks(alloc, shape, part, function)?;
    let next = push_pieces(
        alloc,
        &mut blocks,
        shape,
        part,
        origins.as_slice(),
        first,
        source,
    )?;
    blocks.push(done_block(alloc, shape)?)?;
    let names = names_of(alloc, shape, &function.names, next.saturating_sub(first))?;
    Ok((blocks, names))
}

/// A part that gives what the coroutine gives.
fn ramp_part(
    alloc: Global,
    shape: &Shape,
    part: Part,
    name: Name,
    params: Items<Param>,
    function: &Function,
) -> Result<Function, AllocError>
    ensures { IfOk result (λ f. f ≡ ramp_part shape.now part name params function.now) }
{
    let (blocks, names) = body_of(alloc, shape, part, function)?;
    Ok(Function {
        name,
        result: Data::copied(&function.result, alloc)?,
        params,
        coroutine: false,
        blocks,
        names,
    })
}

fn ramp_of(alloc: Global, shape: &Shape, function: &Function) -> Result<Function, AllocError>
    ensures { IfOk result (λ f. f ≡ ramp_of shape.now function.now) }
{
    let name = function.name.copied(alloc)?;
    let params = function.params.copied(alloc)?;
    ramp_part(alloc, shape, Part::Ramp, name, params, function)
}

fn given_ramp_of(alloc: Global, shape: &Shape, function: &Function) -> Result<Function, AllocError>
    ensures { IfOk result (λ f. f ≡ given_ramp_of shape.now function.now) }
{
    let name = part_name(alloc, &function.name, b".noalloc")?;
    let mut params = function.params.copied(alloc)?;
    params.push(Param {
        ty: IrType::pointer(),
        name: shape.given_name()?,
    })?;
    ramp_part(alloc, shape, Part::GivenRamp, name, params, function)
}

fn later_part(
    alloc: Global,
    shape: &Shape,
    part: Part,
    name: &Name,
    function: &Function,
) -> Result<Function, AllocError>
    ensures { IfOk result (λ f. f ≡ later_part shape.now part name.now function.now) }
{
    let (blocks, names) = body_of(alloc, shape, part, function)?;
    let mut params = Items::new(alloc);
    params.push(Param {
        ty: IrType::pointer(),
        name: shape.begin,
    })?;
    Ok(Function {
        name: name.copied(alloc)?,
        result: None,
        params,
        coroutine: false,
        blocks,
        names,
    })
}

/// Adds the parts of instances whose frames are given.
fn push_given_parts(
    alloc: Global,
    all: &mut Items<Function>,
    shape: &Shape,
    function: &Function,
) -> Result<(), AllocError>
    ensures { OnOk result (all.new ≡ all.old ++ given_parts shape.now function.now) }
{
    let cleanup = later_part(alloc, shape, Part::Cleanup, &shape.cleanup_name, function)?;
    let cleanup = pruned(alloc, cleanup)?;
    let ramp = pruned(alloc, given_ramp_of(alloc, shape, function)?)?;
    all.push(cleanup)?;
    all.push(ramp)?;
    Ok(())
}

/// Adds the parts of a coroutine, those of instances whose frames are given where there are such.
pub fn push_parts(
    alloc: Global,
    all: &mut Items<Function>,
    shape: &Shape,
    given: bool,
    function: &Function,
) -> Result<(), AllocError>
    ensures { OnOk result (all.new ≡ all.old ++ parts_of shape.now given function.now) }
{
    let ramp = pruned(alloc, ramp_of(alloc, shape, function)?)?;
    let resume = later_part(alloc, shape, Part::Resume, &shape.resume_name, function)?;
    let resume = pruned(alloc, resume)?;
    let destroy = later_part(alloc, shape, Part::Destroy, &shape.destroy_name, function)?;
    let destroy = pruned(alloc, destroy)?;
    all.push(ramp)?;
    all.push(resume)?;
    all.push(destroy)?;
    if given {
        push_given_parts(alloc, all, shape, function)?;
    }
    Ok(())
}

fn plain_shape(alloc: Global, function: &Function) -> Result<Shape, AllocError>
    ensures { IfOk result (λ s. s ≡ plain_shape function.now) }
{
    let base = function.names.len();
    Ok(Shape {
        begin: base,
        end: base,
        size: 0,
        align: 0,
        index: 0,
        width: IntWidth::I8,
        suspends: Items::new(alloc),
        saves: Items::new(alloc),
        base,
        resume_name: Name::Text(Text::from_bytes(alloc, &[])?),
        destroy_name: Name::Text(Text::from_bytes(alloc, &[])?),
        cleanup_name: Name::Text(Text::from_bytes(alloc, &[])?),
    })
}

/// A function that is no coroutine, with its resumes, destroys, tests and promises turned.
pub fn plain_of(alloc: Global, function: &Function) -> Result<Function, AllocError>
    ensures { IfOk result (λ f. f ≡ plain_of (plain_shape function.now) function.now) }
{
    let shape = plain_shape(alloc, function)?;
    let first = shape.base;
    let mut blocks = Items::new(alloc);
    let source = function.blocks.as_slice();
    let next = push_pieces(alloc, &mut blocks, &shape, Part::Ramp, &[], first, source)?;
    let mut names = function.names.copied(alloc)?;
    push_names(&mut names, instr_names(alloc, next.saturating_sub(first))?)?;
    Ok(Function {
        name: function.name.copied(alloc)?,
        result: Data::copied(&function.result, alloc)?,
        params: function.params.copied(alloc)?,
        coroutine: false,
        blocks,
        names,
    })
}
