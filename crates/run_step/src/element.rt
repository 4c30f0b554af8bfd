//! getelementptr.

ghost use Rattle.std.specs.Prelude.{◌≡◌, slice_get};
ghost use Rattle.ir_paths.specs.ir_model.Layout.{unnamed as unnamed_of};
ghost use Rattle.run_memory.specs.run_ints.Words.{IsNum};
ghost use Rattle.run_step.specs.Values.{index_of as index_of_number, number_at as number_at_type, plus as plus_of, times as times_of, is_in_bounds, element as element_of, arg_value, part_at as part_at_index, inner_distance as inner_distance_of, distance as distance_of, indices_of};

use crate::operand::{Values, number_at};
use crate::program::Program;
use ir_paths::ir_base_library::CastOp;
use ir_paths::ir_model_library::{Arg, IrType, Node};
use run_memory::run_ints_library::{Num, cast};
use run_memory::{Memory, Offset, Pointer, Value};

/// An index with its sign, none where it is poison.
fn index_of(number: Num) -> Option<u64>
    requires { IsNum number }
    ensures { result ≡ index_of_number number }
{
    match number {
        Num::Poison => None,
        Num::Is(word) => match cast(CastOp::Sext, false, Num::Is(word), 64) {
            Num::Poison => None,
            Num::Is(extended) => Some(extended.bits),
        },
    }
}

fn plus(a: Option<u64>, b: Option<u64>) -> Option<u64>
    ensures { result ≡ plus_of a b }
{
    match (a, b) {
        (Some(a), Some(b)) => Some(a.wrapping_add(b)),
        _ => None,
    }
}

fn times(size: u64, index: Option<u64>) -> Option<u64>
    ensures { result ≡ times_of size index }
{
    match index {
        Some(index) => Some(size.wrapping_mul(index)),
        None => None,
    }
}

/// Whether a block has an offset from 0 to its size.
fn is_within(memory: &Memory, block: usize, offset: Offset) -> bool
    ensures { result ≡ is_in_bounds (slice_get memory.now block) offset }
{
    match memory.get(block) {
        Some(x) => x.has_within(offset),
        None => false,
    }
}

/// A pointer moved by a distance.
pub fn moved(memory: &Memory, inbounds: bool, base: Value, distance: Option<u64>) -> Value
    ensures { result ≡ element_of memory.now inbounds base distance }
{
    let Some(distance) = distance else {
        return Value::Poison;
    };
    match base {
        Value::Ptr(Pointer::Null) => { if distance == 0 { base } else { Value::Poison } }
        Value::Ptr(Pointer::At(block, offset)) => {
            let there = offset.moved(distance);
            if inbounds && !is_within(memory, block, there) {
                Value::Poison
            } else {
                Value::Ptr(Pointer::At(block, there))
            }
        }
        _ => Value::Poison,
    }
}

impl Program {
    fn index(&self, values: &Values, arg: &Arg) -> Option<u64>
        ensures { result ≡ index_of_number (number_at_type arg.now.ty (arg_value self.now.«module» values.now arg.now)) }
    {
        index_of(number_at(&arg.ty, self.value_of_arg(values, arg)))
    }

    /// What a type is where it is a name.
    fn unnamed<'a>(&'a self, ty: &'a IrType) -> &'a IrType
        ensures { result.now ≡ unnamed_of self.now.«module» ty.now }
    {
        match ty.node() {
            Node::Named(name) => match self.type_named(name) {
                Some(meant) => meant,
                None => ty,
            },
            _ => ty,
        }
    }

    /// How far an index leads inside a type that is no name, and to which type.
    fn part_at<'a>(&'a self, ty: &'a IrType, index: Option<u64>) -> (Option<u64>, &'a IrType)
        ensures distance { result.0 ≡ (part_at_index self.now.«module» ty.now index).0 }
        ensures ty { result.1.now ≡ (part_at_index self.now.«module» ty.now index).1 }
    {
        match ty.node() {
            Node::Array(_, element) => (times(self.size_of(element), index), element),
            Node::Struct(fields) => {
                let i = index.unwrap_or(0);
                let offset = self.field_offset(fields, i);
                match fields.get(i as usize) {
                    Some(field) => (Some(offset), field),
                    None => (Some(offset), self.pointer()),
                }
            }
            _ => (None, ty),
        }
    }

    /// The distance so far, and that of further indices inside a type.
    fn inner_distance<'a>(
        &'a self,
        values: &Values,
        ty: &'a IrType,
        so_far: Option<u64>,
        indices: &[Arg],
    ) -> Option<u64>
        ensures { result ≡ inner_distance_of self.now.«module» ty.now so_far (indices_of self.now.«module» values.now indices.now) }
    {
        let mut distance = so_far;
        let mut inside = ty;
        for arg in indices {
            let index = self.index(values, arg);
            let (part, next) = self.part_at(self.unnamed(inside), index);
            distance = plus(distance, part);
            inside = next;
        }
        distance
    }

    /// The distance of a getelementptr, none where an index is poison.
    pub fn distance(&self, values: &Values, ty: &IrType, indices: &[Arg]) -> Option<u64>
        ensures { result ≡ distance_of self.now.«module» ty.now (indices_of self.now.«module» values.now indices.now) }
    {
        match indices {
            [] => Some(0),
            [first, rest @ ..] => {
                let so_far = times(self.size_of(ty), self.index(values, first));
                self.inner_distance(values, ty, so_far, rest)
            }
        }
    }
}
