//! What a line becomes.

ghost use Rattle.std.specs.Prelude.{◌≡◌, ◌≤◌, ◌++◌, IfOk, OnOk, decimal};
ghost use Rattle.clang_reader.specs.Written as spec;

use crate::form::{Form, memset_place, value_of};
use clang_tokens::{at, copied, push_word, tokens_from, tokens_to};
use ir_base::{Items, Text};
use itoa::Buffer;
use std::alloc::{AllocError, Global};

fn push_number(number: u64, out: &mut Vec<u8>) -> Result<(), AllocError>
    ensures { OnOk result (out.new.items ≡ out.old.items ++ decimal number) }
{
    let mut buffer = Buffer::new();
    out.extend_from_slice(buffer.format(number).as_bytes())
}

/// A name that no line of clang has.
fn fresh(alloc: Global, line: u64, k: u64) -> Result<Text, AllocError>
    ensures { IfOk result (λ t. t ≡ spec.fresh line k) }
{
    let mut name = Vec::new(alloc);
    name.extend_from_slice(b"%.clang.")?;
    push_number(line, &mut name)?;
    name.push(b'.')?;
    push_number(k, &mut name)?;
    Text::from_bytes(alloc, &name)
}

#[tactic(auto, unfolding(crate::specs::Written::wrapper_call))]
fn push_wrapper(
    alloc: Global,
    i: usize,
    tokens: &[Text],
    out: &mut Items<Text>,
) -> Result<(), AllocError>
    requires { i ≤ 4 }
    ensures { OnOk result (out.new ≡ out.old ++ spec.wrapper_call i tokens.now) }
{
    push_word(alloc, out, at(tokens, i + 9))?;
    push_word(alloc, out, b"(")?;
    push_word(alloc, out, b"ptr")?;
    push_word(alloc, out, at(tokens, i + 3))?;
    push_word(alloc, out, b",")?;
    push_word(alloc, out, b"ptr")?;
    push_word(alloc, out, at(tokens, i + 6))?;
    push_word(alloc, out, b")")
}

#[tactic(auto, unfolding(crate::specs::Written::resume_front))]
fn push_resume_front(alloc: Global, out: &mut Items<Text>) -> Result<(), AllocError>
    ensures { OnOk result (out.new ≡ out.old ++ spec.resume_front) }
{
    push_word(alloc, out, b"call")?;
    push_word(alloc, out, b"void")?;
    push_word(alloc, out, b"@llvm.coro.resume")
}

#[tactic(auto, unfolding(crate::specs::Written::resume_back))]
fn push_resume_back(alloc: Global, handle: &[u8], out: &mut Items<Text>) -> Result<(), AllocError>
    ensures { OnOk result (out.new ≡ out.old ++ spec.resume_back handle.now) }
{
    push_word(alloc, out, b"(")?;
    push_word(alloc, out, b"ptr")?;
    push_word(alloc, out, handle)?;
    push_word(alloc, out, b")")
}

#[tactic(auto, unfolding(crate::specs::Written::resume_call))]
fn push_resume(alloc: Global, handle: &[u8], out: &mut Items<Text>) -> Result<(), AllocError>
    ensures { OnOk result (out.new ≡ out.old ++ spec.resume_call handle.now) }
{
    push_resume_front(alloc, out)?;
    push_resume_back(alloc, handle, out)
}

#[tactic(auto, unfolding(crate::specs::Written::handle_front))]
fn push_handle_front(alloc: Global, handle: &[u8], out: &mut Items<Text>) -> Result<(), AllocError>
    ensures { OnOk result (out.new ≡ out.old ++ spec.handle_front handle.now) }
{
    push_word(alloc, out, handle)?;
    push_word(alloc, out, b"=")?;
    push_word(alloc, out, b"call")?;
    push_word(alloc, out, b"ptr")
}

fn push_handed_on(
    alloc: Global,
    handle: &[u8],
    tokens: &[Text],
    out: &mut Items<Text>,
) -> Result<(), AllocError>
    ensures { OnOk result (out.new ≡ out.old ++ spec.handed_on handle.now tokens.now) }
{
    push_handle_front(alloc, handle, out)?;
    push_wrapper(alloc, 2, tokens, out)?;
    push_resume(alloc, handle, out)?;
    copied(alloc, tokens_from(tokens, 13), out)
}

#[tactic(auto, unfolding(crate::specs::Written::address_front))]
fn push_address_front(alloc: Global, name: &[u8], out: &mut Items<Text>) -> Result<(), AllocError>
    ensures { OnOk result (out.new ≡ out.old ++ spec.address_front name.now) }
{
    push_word(alloc, out, name)?;
    push_word(alloc, out, b"=")?;
    push_word(alloc, out, b"getelementptr")
}

#[tactic(auto, unfolding(crate::specs::Written::address_type))]
fn push_address_type(alloc: Global, out: &mut Items<Text>) -> Result<(), AllocError>
    ensures { OnOk result (out.new ≡ out.old ++ spec.address_type) }
{
    push_word(alloc, out, b"i8")?;
    push_word(alloc, out, b",")
}

#[tactic(auto, unfolding(crate::specs::Written::address_back))]
fn push_address_back(
    alloc: Global,
    pointer: &[u8],
    k: u64,
    out: &mut Items<Text>,
) -> Result<(), AllocError>
    ensures { OnOk result (out.new ≡ out.old ++ spec.address_back pointer.now k) }
{
    let mut offset = Vec::new(alloc);
    push_number(k, &mut offset)?;
    push_word(alloc, out, b"ptr")?;
    push_word(alloc, out, pointer)?;
    push_word(alloc, out, b",")?;
    push_word(alloc, out, b"i64")?;
    push_word(alloc, out, &offset)
}

fn push_address(
    alloc: Global,
    name: &[u8],
    pointer: &[u8],
    k: u64,
    out: &mut Items<Text>,
) -> Result<(), AllocError>
    ensures { OnOk result (out.new ≡ out.old ++ spec.address name.now pointer.now k) }
{
    push_address_front(alloc, name, out)?;
    push_address_type(alloc, out)?;
    push_address_back(alloc, pointer, k, out)
}

fn push_store(
    alloc: Global,
    name: &[u8],
    byte: &[u8],
    out: &mut Items<Text>,
) -> Result<(), AllocError>
    ensures { OnOk result (out.new ≡ out.old ++ spec.store_to name.now byte.now) }
{
    push_word(alloc, out, b"store")?;
    push_word(alloc, out, b"i8")?;
    push_word(alloc, out, byte)?;
    push_word(alloc, out, b",")?;
    push_word(alloc, out, b"ptr")?;
    push_word(alloc, out, name)
}

#[tactic(auto, using(crate::proofs::Stores::one_more, crate::proofs::Stores::none_more))]
fn push_stores(
    alloc: Global,
    line: u64,
    pointer: &[u8],
    byte: &[u8],
    count: u64,
    out: &mut Items<Text>,
) -> Result<(), AllocError>
    ensures { OnOk result (out.new ≡ out.old ++ spec.byte_stores line pointer.now byte.now 0 count) }
{
    for k in 0..count {
        let name = fresh(alloc, line, k)?;
        push_address(alloc, name.as_bytes(), pointer, k, out)?;
        push_store(alloc, name.as_bytes(), byte, out)?;
    }
    Ok(())
}

fn push_stores_at(
    alloc: Global,
    line: u64,
    i: usize,
    tokens: &[Text],
    out: &mut Items<Text>,
) -> Result<(), AllocError>
    requires { i ≤ 7 }
    ensures { OnOk result (out.new ≡ out.old ++ spec.stores_at line i tokens.now) }
{
    let count = value_of(at(tokens, i + 6));
    push_stores(alloc, line, at(tokens, i), at(tokens, i + 3), count, out)
}

/// What a line of a form becomes.
pub fn written_as(
    alloc: Global,
    form: Form,
    line: u64,
    tokens: Items<Text>,
) -> Result<Items<Text>, AllocError>
    ensures { IfOk result (λ w. w ≡ spec.written_as form line tokens) }
{
    let given = tokens.as_slice();
    let mut out = Items::new(alloc);
    match form {
        Form::Bitcast | Form::Idle => {}
        Form::Void => {
            copied(alloc, tokens_to(given, 2), &mut out)?;
            push_wrapper(alloc, 2, given, &mut out)?;
            copied(alloc, tokens_from(given, 13), &mut out)?;
        }
        Form::Bool => {
            copied(alloc, tokens_to(given, 4), &mut out)?;
            push_wrapper(alloc, 4, given, &mut out)?;
            copied(alloc, tokens_from(given, 15), &mut out)?;
        }
        Form::Handle => {
            let handle = fresh(alloc, line, 0)?;
            push_handed_on(alloc, handle.as_bytes(), given, &mut out)?;
        }
        Form::Memset => push_stores_at(alloc, line, memset_place(given), given, &mut out)?,
        Form::Other => return Ok(tokens),
    }
    Ok(out)
}
