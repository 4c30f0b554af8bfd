//! What the frame of a coroutine holds.

ghost use Rattle.std.specs.Prelude.{◌≡◌, ◌++◌, ◌∷◌, [], IfOk, OnOk, false, get_or, if◌then◌else◌};
ghost use Rattle.frame_contents.specs.Held.{answer_size as answer_size_of, held_blocks, held_by as held_by_tests, held_instr, held_instrs, held_of as held_of_function, held_params, held_phis, if_result, if_value, result_size as result_size_of, slot_kind as slot_kind_of, value_size as value_size_of};
ghost use Rattle.ir_model.specs.Layout.{bytes_of_width};
ghost use Rattle.ir_model.specs.TypeView.{bits_of};
ghost use Rattle.ir_paths.specs.Slots.{allocas_of, promise_of as promise_of_function};

use crate::marks::{crossing_values, frame_slots, is_marked, marks_of};
use crate::promise::promise_of;
use frame_conflicts::frame_classes_library::SlotClass;
use frame_layout::FieldKind;
use ir_base::{Items, SuspendId, ValueId};
use ir_model::{Block, Function, Instr, IntWidth, IrType, Node, Param, Phi};
use ir_parts::result_of;
use ir_sizes::Sizes;
use std::alloc::{AllocError, Global};

/// What a field of a frame keeps: a value that crosses a suspend, or a slot, by its name, with its size and alignment in bytes.
#[derive(Clone, Copy, Debug, PartialEq, Eq, Drop)]
pub struct Holding {
    pub kind: FieldKind,
    pub value: ValueId,
    pub size: u64,
    pub align: u64,
}

fn width_size(width: IntWidth) -> u64
    ensures { result ≡ bytes_of_width (bits_of width) }
{
    match width {
        IntWidth::I1 | IntWidth::I8 => 1,
        IntWidth::I16 => 2,
        IntWidth::I32 => 4,
        IntWidth::I64 => 8,
    }
}

/// The bytes of a value of a type: those of its width, 8 of a pointer, and 0 where values have no such type.
pub fn value_size(ty: &IrType) -> u64
    ensures { result ≡ value_size_of ty.now }
{
    match ty.node() {
        Node::Int(width) => width_size(*width),
        Node::Ptr => 8,
        Node::Token | Node::Array(_, _) | Node::Struct(_) | Node::Named(_) => 0,
    }
}

fn answer_size(ty: &Option<IrType>) -> u64
    ensures { result ≡ answer_size_of ty.now }
{
    match ty {
        None => 0,
        Some(ty) => value_size(ty),
    }
}

/// The bytes of an instruction's result.
pub fn result_size(instr: &Instr) -> u64
    ensures { result ≡ result_size_of instr.now }
{
    match instr {
        Instr::Binary { ty, .. } => value_size(ty),
        Instr::Icmp { .. } => 1,
        Instr::Select { yes, .. } => value_size(&yes.ty),
        Instr::Cast { to, .. } => value_size(to),
        Instr::Alloca { .. } => 8,
        Instr::Load { ty, .. } => value_size(ty),
        Instr::Store { .. } => 0,
        Instr::Gep { .. } => 8,
        Instr::Call { ty, .. } => answer_size(ty),
    }
}

fn slot_kind(promise: Option<ValueId>, slot: ValueId) -> FieldKind
    ensures { result ≡ slot_kind_of promise slot }
{
    match promise {
        None => FieldKind::Slot,
        Some(promise) => {
            if promise == slot {
                FieldKind::Promise
            } else {
                FieldKind::Slot
            }
        }
    }
}

fn push_value(
    all: &mut Items<Holding>,
    values: &[bool],
    value: ValueId,
    size: u64,
) -> Result<(), AllocError>
    ensures { OnOk result (all.new ≡ all.old ++ if_value (λ v. get_or values.now v false) value size) }
{
    if is_marked(values, value) {
        all.push(Holding {
            kind: FieldKind::Value,
            value,
            size,
            align: size,
        })?;
    }
    Ok(())
}

fn push_result(
    all: &mut Items<Holding>,
    values: &[bool],
    value: Option<ValueId>,
    size: u64,
) -> Result<(), AllocError>
    ensures { OnOk result (all.new ≡ all.old ++ if_result (λ v. get_or values.now v false) value size) }
{
    match value {
        None => Ok(()),
        Some(value) => push_value(all, values, value, size),
    }
}

fn push_params(
    all: &mut Items<Holding>,
    values: &[bool],
    params: &[Param],
) -> Result<(), AllocError>
    ensures { OnOk result (all.new ≡ all.old ++ held_params (λ v. get_or values.now v false) params.now) }
{
    for param in params {
        push_value(all, values, param.name, value_size(&param.ty))?;
    }
    Ok(())
}

fn push_phis(all: &mut Items<Holding>, values: &[bool], phis: &[Phi]) -> Result<(), AllocError>
    ensures { OnOk result (all.new ≡ all.old ++ held_phis (λ v. get_or values.now v false) phis.now) }
{
    for phi in phis {
        push_value(all, values, phi.result, value_size(&phi.ty))?;
    }
    Ok(())
}

fn push_instr(
    all: &mut Items<Holding>,
    sizes: &Sizes<'_>,
    promise: Option<ValueId>,
    values: &[bool],
    slots: &[bool],
    instr: &Instr,
) -> Result<(), AllocError>
    ensures { OnOk result (all.new ≡ all.old ++ held_instr sizes.now.names.now.source.now promise (λ v. get_or values.now v false) (λ v. get_or slots.now v false) instr.now) }
{
    match instr {
        Instr::Alloca {
            result: slot,
            ty,
            align,
        } => {
            if is_marked(slots, *slot) {
                all.push(Holding {
                    kind: slot_kind(promise, *slot),
                    value: *slot,
                    size: sizes.size_of(ty),
                    align: *align,
                })?;
            }
            Ok(())
        }
        _ => push_result(all, values, result_of(instr), result_size(instr)),
    }
}

fn push_instrs(
    all: &mut Items<Holding>,
    sizes: &Sizes<'_>,
    promise: Option<ValueId>,
    values: &[bool],
    slots: &[bool],
    instrs: &[Instr],
) -> Result<(), AllocError>
    ensures { OnOk result (all.new ≡ all.old ++ held_instrs sizes.now.names.now.source.now promise (λ v. get_or values.now v false) (λ v. get_or slots.now v false) instrs.now) }
{
    for instr in instrs {
        push_instr(all, sizes, promise, values, slots, instr)?;
    }
    Ok(())
}

fn push_block(
    all: &mut Items<Holding>,
    sizes: &Sizes<'_>,
    promise: Option<ValueId>,
    values: &[bool],
    slots: &[bool],
    block: &Block,
) -> Result<(), AllocError>
    ensures { OnOk result (all.new ≡ all.old ++ (held_phis (λ v. get_or values.now v false) block.now.phis ++ held_instrs sizes.now.names.now.source.now promise (λ v. get_or values.now v false) (λ v. get_or slots.now v false) block.now.instrs)) }
{
    push_phis(all, values, block.phis.as_slice())?;
    push_instrs(all, sizes, promise, values, slots, block.instrs.as_slice())
}

fn push_blocks(
    all: &mut Items<Holding>,
    sizes: &Sizes<'_>,
    promise: Option<ValueId>,
    values: &[bool],
    slots: &[bool],
    blocks: &[Block],
) -> Result<(), AllocError>
    ensures { OnOk result (all.new ≡ all.old ++ held_blocks sizes.now.names.now.source.now promise (λ v. get_or values.now v false) (λ v. get_or slots.now v false) blocks.now) }
{
    for block in blocks {
        push_block(all, sizes, promise, values, slots, block)?;
    }
    Ok(())
}

/// The marked values and slots, in order of the text.
fn held_by(
    alloc: Global,
    sizes: &Sizes<'_>,
    function: &Function,
    values: &[bool],
    slots: &[bool],
) -> Result<Items<Holding>, AllocError>
    ensures { IfOk result (λ held. held ≡ held_by_tests sizes.now.names.now.source.now function.now (λ v. get_or values.now v false) (λ v. get_or slots.now v false)) }
{
    let promise = promise_of(alloc, function)?;
    let mut all = Items::new(alloc);
    push_params(&mut all, values, function.params.as_slice())?;
    push_blocks(
        &mut all,
        sizes,
        promise,
        values,
        slots,
        function.blocks.as_slice(),
    )?;
    Ok(all)
}

/// The values that cross suspends and the frame slots of a function, in order of the text.
pub(crate) fn held_of(
    alloc: Global,
    sizes: &Sizes<'_>,
    function: &Function,
    allocas: &[ValueId],
    classes: &[SlotClass],
    crossing: &[(ValueId, SuspendId)],
) -> Result<Items<Holding>, AllocError>
    requires { allocas.now ≡ allocas_of function.now }
    ensures { IfOk result (λ held. held ≡ held_of_function sizes.now.names.now.source.now function.now classes.now crossing.now) }
{
    let names = function.names.len();
    let crossing = crossing_values(alloc, crossing)?;
    let values = marks_of(alloc, names, &crossing)?;
    let frame = frame_slots(alloc, allocas, classes)?;
    let slots = marks_of(alloc, names, &frame)?;
    held_by(alloc, sizes, function, &values, &slots)
}
