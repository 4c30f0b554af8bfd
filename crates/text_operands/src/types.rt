//! The text of types.

ghost use Rattle.std.specs.Prelude.{◌≡◌, ◌<◌, ◌+◌, ◌*◌, ◌++◌, OnOk, decimal, codes};
ghost use Rattle.text_names.specs.Spelling.{spelling};
ghost use Rattle.ir_model.specs.Ty.{structure, to_tys, ty_size};
ghost use Rattle.ir_model.specs.TypeView.{bits_of};
ghost use Rattle.text_canonical.specs.canonical.Types.{type_text};
ghost use Rattle.text_operands.specs.Waiting.{part_text, part_size, waiting_text, waiting_size};

use ir_base::Name;
use ir_model::{IntWidth, IrType, Node};
use itoa::Buffer;
use std::alloc::AllocError;
use text_names::print_name;

/// A part of a type that is still to be written.
#[derive(Drop)]
pub enum Part<'a> {
    Type(&'a IrType),
    /// Fields of a structure behind its first, and its end.
    Fields(&'a [IrType]),
    /// The end of an array.
    Close,
}

/// Writes a number in decimal.
pub fn push_number(number: u64, out: &mut Vec<u8>) -> Result<(), AllocError>
    ensures { OnOk result (out.new.items ≡ out.old.items ++ decimal number) }
{
    let mut buffer = Buffer::new();
    out.extend_from_slice(buffer.format(number).as_bytes())
}

fn bits(width: IntWidth) -> u64
    ensures { result ≡ bits_of width }
{
    match width {
        IntWidth::I1 => 1,
        IntWidth::I8 => 8,
        IntWidth::I16 => 16,
        IntWidth::I32 => 32,
        IntWidth::I64 => 64,
    }
}

fn push_named(name: &Name, out: &mut Vec<u8>) -> Result<(), AllocError>
    ensures { OnOk result (out.new.items ≡ out.old.items ++ (codes "%" ++ spelling name.now)) }
{
    out.push(b'%')?;
    print_name(name, out)
}

fn push_int(width: IntWidth, out: &mut Vec<u8>) -> Result<(), AllocError>
    ensures { OnOk result (out.new.items ≡ out.old.items ++ (codes "i" ++ decimal (bits_of width))) }
{
    out.push(b'i')?;
    push_number(bits(width), out)
}

fn push_count(count: u64, out: &mut Vec<u8>) -> Result<(), AllocError>
    ensures { OnOk result (out.new.items ≡ out.old.items ++ (codes "[" ++ decimal count ++ codes " x ")) }
{
    out.push(b'[')?;
    push_number(count, out)?;
    out.extend_from_slice(b" x ")
}

#[tactic(auto, using(crate::specs::Waiting::text_pushed, crate::specs::Waiting::size_pushed))]
fn put_off<'a>(part: Part<'a>, waiting: &mut Vec<Part<'a>>) -> Result<(), AllocError>
    ensures text { OnOk result (waiting_text waiting.new.items ≡ part_text part.entry ++ waiting_text waiting.old.items) }
    ensures size { OnOk result (waiting_size waiting.new.items ≡ waiting_size waiting.old.items + part_size part.entry) }
{
    waiting.push(part)?;
    Ok(())
}

/// Writes what a type begins with, and keeps the rest for later.
fn begin_type<'a>(
    ty: &'a IrType,
    waiting: &mut Vec<Part<'a>>,
    out: &mut Vec<u8>,
) -> Result<(), AllocError>
    ensures text { OnOk result (out.new.items ++ waiting_text waiting.new.items
        ≡ out.old.items ++ (type_text ty.now ++ waiting_text waiting.old.items)) }
    ensures less { OnOk result (waiting_size waiting.new.items < waiting_size waiting.old.items + 2 * ty_size ty.now) }
{
    match ty.node() {
        Node::Int(width) => push_int(*width, out),
        Node::Ptr => out.extend_from_slice(b"ptr"),
        Node::Token => out.extend_from_slice(b"token"),
        Node::Array(count, element) => {
            push_count(*count, out)?;
            put_off(Part::Close, waiting)?;
            put_off(Part::Type(element), waiting)?;
            Ok(())
        }
        Node::Struct(fields) => begin_structure(fields, waiting, out),
        Node::Named(name) => push_named(name, out),
    }
}

fn begin_structure<'a>(
    fields: &'a [IrType],
    waiting: &mut Vec<Part<'a>>,
    out: &mut Vec<u8>,
) -> Result<(), AllocError>
    ensures text { OnOk result (out.new.items ++ waiting_text waiting.new.items
        ≡ out.old.items ++ (type_text (structure (to_tys fields.now)) ++ waiting_text waiting.old.items)) }
    ensures less { OnOk result (waiting_size waiting.new.items
        < waiting_size waiting.old.items + 2 * ty_size (structure (to_tys fields.now))) }
{
    let [first, others @ ..] = fields else {
        return out.extend_from_slice(b"{}");
    };
    out.extend_from_slice(b"{ ")?;
    put_off(Part::Fields(others), waiting)?;
    put_off(Part::Type(first), waiting)?;
    Ok(())
}

/// Writes what a part begins with, and keeps the rest for later.
fn begin_part<'a>(
    part: Part<'a>,
    waiting: &mut Vec<Part<'a>>,
    out: &mut Vec<u8>,
) -> Result<(), AllocError>
    ensures text { OnOk result (out.new.items ++ waiting_text waiting.new.items
        ≡ out.old.items ++ (part_text part.entry ++ waiting_text waiting.old.items)) }
    ensures less { OnOk result (waiting_size waiting.new.items < waiting_size waiting.old.items + part_size part.entry) }
{
    match part {
        Part::Type(ty) => begin_type(ty, waiting, out),
        Part::Fields([]) => out.extend_from_slice(b" }"),
        Part::Fields([first, others @ ..]) => {
            out.extend_from_slice(b", ")?;
            put_off(Part::Fields(others), waiting)?;
            put_off(Part::Type(first), waiting)?;
            Ok(())
        }
        Part::Close => out.extend_from_slice(b"]"),
    }
}

/// Writes a type. Its parts wait on a stack, since a type may nest as deep as its text is long.
#[tactic(auto, using(crate::specs::Waiting::text_pushed, crate::specs::Waiting::size_pushed))]
pub fn push_type(ty: &IrType, out: &mut Vec<u8>) -> Result<(), AllocError>
    ensures { OnOk result (out.new.items ≡ out.old.items ++ type_text ty.now) }
{
    let mut waiting = Vec::new(*out.allocator());
    begin_type(ty, &mut waiting, out)?;
    while let Some(part) = waiting.pop() {
        begin_part(part, &mut waiting, out)?;
    }
    Ok(())
}
