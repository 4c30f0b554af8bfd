//! Operands and their values.

ghost use Rattle.std.specs.Prelude.{◌≡◌, ◌≤◌, IfOk, []};
ghost use Rattle.run_step.specs.Values.{literal as literal_of, value_in, value_of as value_of_number, number_of_width, number_at as number_at_type, address as address_in, stored, access_of as access_of_type, truth_value, pointer_to as pointer_to_block, operand_value, arg_value, arg_values, nth};
ghost use Rattle.ir_paths.specs.ir_model.TypeView.{bits_of};
ghost use Rattle.run_memory.specs.run_ints.Words.{IsNum, IsNumOf};
ghost use Rattle.ir_paths.specs.ir_model.Ty.{int, ptr};
ghost use Rattle.run_memory.specs.Memory.{access_bytes};

use crate::program::Program;
use crate::width::{bits, cut, greatest};
use ir_paths::ir_base_library::{Items, ValueId, Word};
use ir_paths::ir_model_library::{Arg, GlobalItem, IntWidth, IrType, Node, Operand};
use run_memory::run_ints_library::Num;
use run_memory::{Access, BlockId, Offset, Pointer, Value};
use std::alloc::{AllocError, Global};

/// The values of an activation, by the names of its function: none where a name has no value yet.
pub type Values = Items<Option<Value>>;

/// The value of a local, poison where it has none.
pub fn value_of_local(values: &Values, name: ValueId) -> Value
    ensures { result ≡ value_in values.now name }
{
    match values.get(name) {
        Some(Some(value)) => *value,
        Some(None) => Value::Poison,
        None => Value::Poison,
    }
}

/// The value of a literal.
pub fn literal(ty: &IrType, z: i128) -> Value
    ensures { result ≡ literal_of ty.now z }
{
    match ty.node() {
        Node::Int(width) => Value::Int(Word {
            width: bits(*width),
            bits: cut(*width, z),
        }),
        _ => Value::Poison,
    }
}

/// A value as a number of a width, which nothing but a word of that width is.
pub fn to_number(width: IntWidth, value: Value) -> Num
    ensures number { result ≡ number_of_width (bits_of width) value }
    ensures fits { IsNumOf (bits_of width) result }
{
    match value {
        Value::Int(word) => {
            if word.width == bits(width) && word.bits <= greatest(width) {
                Num::Is(word)
            } else {
                Num::Poison
            }
        }
        _ => Num::Poison,
    }
}

/// A value as an address, which nothing but a pointer is.
pub fn to_address(value: Value) -> Value
    ensures { result ≡ address_in value }
{
    match value {
        Value::Ptr(_) => value,
        _ => Value::Poison,
    }
}

/// The value that is a number.
pub fn from_number(number: Num) -> Value
    ensures { result ≡ value_of_number number }
{
    match number {
        Num::Poison => Value::Poison,
        Num::Is(word) => Value::Int(word),
    }
}

/// A value as a number of a type.
pub fn number_at(ty: &IrType, value: Value) -> Num
    ensures number { result ≡ number_at_type ty.now value }
    ensures fits { IsNum result }
{
    match ty.node() {
        Node::Int(width) => to_number(*width, value),
        _ => Num::Poison,
    }
}

/// What a load or a store of a type takes.
pub fn access_of(ty: &IrType) -> Access
    ensures access { result ≡ access_of_type ty.now }
    ensures short { access_bytes result ≤ 8 }
{
    match ty.node() {
        Node::Int(width) => Access::Int(bits(*width)),
        _ => Access::Ptr,
    }
}

/// A value as what a store of a type takes.
pub fn to_stored(ty: &IrType, value: Value) -> Value
    ensures { result ≡ stored (access_of_type ty.now) value }
{
    match ty.node() {
        Node::Int(width) => from_number(to_number(*width, value)),
        _ => to_address(value),
    }
}

/// An i1.
pub fn truth(holds: bool) -> Value
    ensures { result ≡ truth_value holds }
{
    let bits = if holds { 1 } else { 0 };
    Value::Int(Word { width: 1, bits })
}

/// The address of a block.
pub fn pointer_to(block: BlockId) -> Value
    ensures { result ≡ pointer_to_block block }
{
    Value::Ptr(Pointer::At(block, Offset { bits: 0 }))
}

impl Program {
    /// The value of an operand of a type.
    pub fn value_of(&self, values: &Values, ty: &IrType, operand: &Operand) -> Value
        ensures { result ≡ operand_value self.now.«module» values.now ty.now operand.now }
    {
        match operand {
            Operand::Local(name) => value_of_local(values, *name),
            Operand::Global(name) => self.address_of(name),
            Operand::Number(z) => literal(ty, *z),
            Operand::True => truth(true),
            Operand::False => truth(false),
            Operand::Null => Value::Ptr(Pointer::Null),
            Operand::None => Value::Poison,
            Operand::Poison => Value::Poison,
        }
    }

    /// The value of an operand that is of type ptr.
    pub fn pointer_in(&self, values: &Values, operand: &Operand) -> Value
        ensures { result ≡ operand_value self.now.«module» values.now ptr operand.now }
    {
        self.value_of(values, self.pointer(), operand)
    }

    /// The value of an operand that is of type i1.
    pub fn condition_in(&self, values: &Values, operand: &Operand) -> Value
        ensures { result ≡ operand_value self.now.«module» values.now (int 1) operand.now }
    {
        match operand {
            Operand::Local(name) => value_of_local(values, *name),
            Operand::Global(name) => self.address_of(name),
            Operand::Number(z) => Value::Int(Word {
                width: 1,
                bits: cut(IntWidth::I1, *z),
            }),
            Operand::True => truth(true),
            Operand::False => truth(false),
            Operand::Null => Value::Ptr(Pointer::Null),
            Operand::None => Value::Poison,
            Operand::Poison => Value::Poison,
        }
    }

    /// The value of an operand with its type.
    pub fn value_of_arg(&self, values: &Values, arg: &Arg) -> Value
        ensures { result ≡ arg_value self.now.«module» values.now arg.now }
    {
        self.value_of(values, &arg.ty, &arg.value)
    }

    /// The value of the argument at a position, poison where there is none.
    pub fn nth_value(&self, values: &Values, args: &[Arg], i: usize) -> Value
        ensures { result ≡ nth (arg_values self.now.«module» values.now args.now) i }
    {
        match args.get(i) {
            Some(arg) => self.value_of_arg(values, arg),
            None => Value::Poison,
        }
    }

    /// The value of an operand with its type where no local has a value.
    pub fn fixed_value(&self, arg: &Arg) -> Value
        ensures { result ≡ arg_value self.now.«module» [] arg.now }
    {
        match &arg.value {
            Operand::Local(_) => Value::Poison,
            Operand::Global(name) => self.address_of(name),
            Operand::Number(z) => literal(&arg.ty, *z),
            Operand::True => truth(true),
            Operand::False => truth(false),
            Operand::Null => Value::Ptr(Pointer::Null),
            Operand::None => Value::Poison,
            Operand::Poison => Value::Poison,
        }
    }

    /// The initial value of a global.
    pub fn initial_value(&self, global: &GlobalItem) -> Value
        ensures { result ≡ operand_value self.now.«module» [] global.now.ty global.now.init }
    {
        match &global.init {
            Operand::Local(_) => Value::Poison,
            Operand::Global(name) => self.address_of(name),
            Operand::Number(z) => literal(&global.ty, *z),
            Operand::True => truth(true),
            Operand::False => truth(false),
            Operand::Null => Value::Ptr(Pointer::Null),
            Operand::None => Value::Poison,
            Operand::Poison => Value::Poison,
        }
    }

    /// The values of arguments in order.
    pub fn values_of_args(
        &self,
        alloc: Global,
        values: &Values,
        args: &[Arg],
    ) -> Result<Items<Value>, AllocError>
        ensures { IfOk result (λ all. all ≡ arg_values self.now.«module» values.now args.now) }
    {
        let mut all = Items::new(alloc);
        for arg in args {
            all.push(self.value_of_arg(values, arg))?;
        }
        Ok(all)
    }
}
