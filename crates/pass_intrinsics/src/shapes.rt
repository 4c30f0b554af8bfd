//! The shape of a coroutine, read off its instructions.

ghost use Rattle.std.specs.Prelude.{◌≡◌, ◌+◌, ◌*◌, IfOk, OnOk, [], ◌∷◌, ◌++◌, length};
ghost use Rattle.ir_paths.specs.Windows.{is_number, label_in, label_of_term};
ghost use Rattle.ir_model.specs.Names.{spelling};
ghost use Rattle.pass_intrinsics.specs.Shapes.{token_of, save_of, first_is_true, is_final, with_suspend, with_suspends_in, with_suspends_by, suspends_of, with_save, with_saves, saves_of, is_end, has_end, end_label, index_width, part_name, shape_of, begun_label, done_label, entry_label, none_label, slot_name, index_name, given_name, saved_label, back_label, pass_label, first_name};

use crate::lowered::is_true;
use crate::shape::{Shape, SuspendPoint};
use crate::small::{later, thrice_later};
use frame_layout::Layout;
use ir_base::{Data, Items, Name, SuspendId, Text, ValueId};
use ir_model::{
    Arg, Block, Callee, Case, Function, Instr, IntWidth, Intrinsic, Operand, Terminator,
};
use itoa::Buffer;
use std::alloc::{AllocError, Global};

fn token_of(operand: &Operand) -> Option<ValueId>
    ensures { result ≡ token_of operand.now }
{
    match operand {
        Operand::Local(id) => Some(*id),
        _ => None,
    }
}

/// The save of a suspend, which is its first operand.
pub fn save_of(args: &[Arg]) -> Option<ValueId>
    ensures { result ≡ save_of args.now }
{
    match args {
        [] => None,
        [first, ..] => token_of(&first.value),
    }
}

fn first_is_true(args: &[Arg]) -> bool
    ensures { result ≡ first_is_true args.now }
{
    match args {
        [] => false,
        [first, ..] => is_true(&first.value),
    }
}

fn is_final(args: &[Arg]) -> bool
    ensures { result ≡ is_final args.now }
{
    match args {
        [] => false,
        [_, others @ ..] => first_is_true(others),
    }
}

fn is_number(number: u64, operand: &Operand) -> bool
    ensures { result ≡ is_number number operand.now }
{
    match operand {
        Operand::Number(n) => *n == i128::from(number),
        _ => false,
    }
}

fn label_in(number: u64, cases: &[Case], default: ValueId) -> ValueId
    ensures { result ≡ label_in number cases.now default }
{
    for case in cases {
        if is_number(number, &case.arg.value) {
            return case.target;
        }
    }
    default
}

fn label_of_term(number: u64, term: &Terminator) -> ValueId
    ensures { result ≡ label_of_term number term.now }
{
    match term {
        Terminator::Switch {
            arg: _,
            default,
            cases,
        } => label_in(number, cases.as_slice(), *default),
        _ => 0,
    }
}

fn push_suspend(
    all: &mut Items<SuspendPoint>,
    block: &Block,
    instr: &Instr,
) -> Result<(), AllocError>
    ensures { OnOk result (all.new ≡ with_suspend all.old block.now instr.now) }
{
    match instr {
        Instr::Call {
            result: _,
            must_tail: _,
            ty: _,
            callee: Callee::Intrinsic(Intrinsic::CoroSuspend),
            args,
        } => {
            all.push(SuspendPoint {
                save: save_of(args.as_slice()),
                is_final: is_final(args.as_slice()),
                block: block.label,
                resume: label_of_term(0, &block.term),
                destroy: label_of_term(1, &block.term),
            })?;
            Ok(())
        }
        _ => Ok(()),
    }
}

fn push_suspends_in(
    all: &mut Items<SuspendPoint>,
    block: &Block,
    instrs: &[Instr],
) -> Result<(), AllocError>
    ensures { OnOk result (all.new ≡ with_suspends_in all.old block.now instrs.now) }
{
    for instr in instrs {
        push_suspend(all, block, instr)?;
    }
    Ok(())
}

fn push_suspends_by(all: &mut Items<SuspendPoint>, blocks: &[Block]) -> Result<(), AllocError>
    ensures { OnOk result (all.new ≡ with_suspends_by all.old blocks.now) }
{
    for block in blocks {
        push_suspends_in(all, block, block.instrs.as_slice())?;
    }
    Ok(())
}

/// The suspends of a coroutine, in order of the text.
pub fn suspends_of(alloc: Global, function: &Function) -> Result<Items<SuspendPoint>, AllocError>
    ensures { IfOk result (λ x. x ≡ suspends_of function.now) }
{
    let mut all = Items::new(alloc);
    push_suspends_by(&mut all, function.blocks.as_slice())?;
    Ok(all)
}

fn set_save(table: &mut Items<Option<SuspendId>>, suspend: SuspendId, save: Option<ValueId>)
    ensures { table.new ≡ with_save table.old suspend save }
{
    if let Some(id) = save {
        table.set(id, Some(suspend));
    }
}

fn set_saves(
    table: &mut Items<Option<SuspendId>>,
    suspends: &[SuspendPoint],
) -> Result<(), AllocError>
    ensures { OnOk result (table.new ≡ with_saves table.old 0 suspends.now) }
{
    let mut number = 0;
    for point in suspends {
        set_save(table, number, point.save);
        number = later(number, 1)?;
    }
    Ok(())
}

/// For each name the suspend whose save it is.
pub fn saves_of(
    alloc: Global,
    function: &Function,
    suspends: &[SuspendPoint],
) -> Result<Items<Option<SuspendId>>, AllocError>
    ensures { IfOk result (λ x. x ≡ saves_of function.now suspends.now) }
{
    let mut table = Items::from_vec(Vec::from_elem(alloc, None, function.names.len())?);
    set_saves(&mut table, suspends)?;
    Ok(table)
}

/// Whether the instruction is `coro.end`.
pub fn is_end(instr: &Instr) -> bool
    ensures { result ≡ is_end instr.now }
{
    matches!(
        instr,
        Instr::Call {
            callee: Callee::Intrinsic(Intrinsic::CoroEnd),
            ..
        }
    )
}

fn has_end(instrs: &[Instr]) -> bool
    ensures { result ≡ has_end instrs.now }
{
    for instr in instrs {
        if is_end(instr) {
            return true;
        }
    }
    false
}

fn end_label(blocks: &[Block]) -> Option<ValueId>
    ensures { result ≡ end_label blocks.now }
{
    for block in blocks {
        if has_end(block.instrs.as_slice()) {
            return Some(block.label);
        }
    }
    None
}

fn index_width(suspends: usize) -> IntWidth
    ensures { result ≡ index_width suspends }
{
    if suspends <= 256 {
        IntWidth::I8
    } else {
        IntWidth::I16
    }
}

fn spelled(alloc: Global, name: &Name) -> Result<Vec<u8>, AllocError>
    ensures { IfOk result (λ v. v.items ≡ spelling name.now) }
{
    match name {
        Name::Number(number) => {
            let mut buffer = Buffer::new();
            Vec::from_slice(alloc, buffer.format(*number).as_bytes())
        }
        Name::Text(text) => Vec::from_slice(alloc, text.as_bytes()),
    }
}

/// The name of a part of a coroutine.
pub fn part_name(alloc: Global, name: &Name, suffix: &[u8]) -> Result<Name, AllocError>
    ensures { IfOk result (λ n. n ≡ part_name name.now suffix.now) }
{
    let mut all = spelled(alloc, name)?;
    all.extend_from_slice(suffix)?;
    Ok(Name::Text(Text::from_bytes(alloc, all.as_slice())?))
}

/// What the parts of a coroutine are made by, from its instructions and its layout.
pub fn shape_of(alloc: Global, function: &Function, layout: &Layout) -> Result<Shape, AllocError>
    ensures { IfOk result (λ s. s ≡ shape_of function.now layout.now) }
{
    let suspends = suspends_of(alloc, function)?;
    let saves = saves_of(alloc, function, suspends.as_slice())?;
    Ok(Shape {
        begin: function.first_result(Intrinsic::CoroBegin).unwrap_or(0),
        end: end_label(function.blocks.as_slice()).unwrap_or(0),
        size: layout.size,
        align: layout.align,
        index: layout.index,
        width: index_width(suspends.len()),
        suspends,
        saves,
        base: function.names.len(),
        resume_name: part_name(alloc, &function.name, b".resume")?,
        destroy_name: part_name(alloc, &function.name, b".destroy")?,
        cleanup_name: part_name(alloc, &function.name, b".cleanup")?,
    })
}

impl Shape {
    /// The label behind begin's stores.
    pub fn begun_label(&self) -> ValueId
        ensures { result ≡ begun_label self.now }
    {
        self.base
    }

    /// The label before the end block.
    pub fn done_label(&self) -> Result<ValueId, AllocError>
        ensures { IfOk result (λ n. n ≡ done_label self.now) }
    {
        later(self.base, 1)
    }

    /// The label of the entry of a part that goes on behind a suspend.
    pub fn entry_label(&self) -> Result<ValueId, AllocError>
        ensures { IfOk result (λ n. n ≡ entry_label self.now) }
    {
        later(self.base, 2)
    }

    /// The label of what no index leads to.
    pub fn none_label(&self) -> Result<ValueId, AllocError>
        ensures { IfOk result (λ n. n ≡ none_label self.now) }
    {
        later(self.base, 3)
    }

    /// The name of the index's address.
    pub fn slot_name(&self) -> Result<ValueId, AllocError>
        ensures { IfOk result (λ n. n ≡ slot_name self.now) }
    {
        later(self.base, 4)
    }

    /// The name of the index.
    pub fn index_name(&self) -> Result<ValueId, AllocError>
        ensures { IfOk result (λ n. n ≡ index_name self.now) }
    {
        later(self.base, 5)
    }

    /// The name of the frame's address in the ramp that is given it.
    pub fn given_name(&self) -> Result<ValueId, AllocError>
        ensures { IfOk result (λ n. n ≡ given_name self.now) }
    {
        later(self.base, 6)
    }

    /// The label behind the stores of a suspend's save.
    pub fn saved_label(&self, suspend: SuspendId) -> Result<ValueId, AllocError>
        ensures { IfOk result (λ n. n ≡ saved_label self.now suspend) }
    {
        thrice_later(later(self.base, 7)?, suspend)
    }

    /// The label at which a part goes on behind a suspend.
    pub fn back_label(&self, suspend: SuspendId) -> Result<ValueId, AllocError>
        ensures { IfOk result (λ n. n ≡ back_label self.now suspend) }
    {
        thrice_later(later(self.base, 8)?, suspend)
    }

    /// The label of a resume right before a suspend.
    pub fn pass_label(&self, suspend: SuspendId) -> Result<ValueId, AllocError>
        ensures { IfOk result (λ n. n ≡ pass_label self.now suspend) }
    {
        thrice_later(later(self.base, 9)?, suspend)
    }

    /// The first name of the instructions.
    pub fn first_name(&self) -> Result<ValueId, AllocError>
        ensures { IfOk result (λ n. n ≡ first_name self.now) }
    {
        thrice_later(later(self.base, 7)?, self.suspends.len())
    }
}
