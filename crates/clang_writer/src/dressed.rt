//! A line of lowered text with what is kept of the original's.

ghost use Rattle.std.specs.Prelude.{◌≡◌, ◌++◌, ◌∷◌, [], IfOk, OnOk, drop, option_map};
ghost use Rattle.clang_writer.specs.Dressed as spec;

use crate::kept::Kept;
use clang_tokens::{at, begins, copied, depth_after, is, is_at, push_word, tokens_from};
use ir_base::{Items, Text};
use std::alloc::{AllocError, Global};

fn is_end(token: &[u8]) -> bool
    ensures { result ≡ spec.is_end token.now }
{
    is(token, b",") || is(token, b")")
}

fn takes_here(named: bool, token: &[u8], next: &[u8]) -> bool
    ensures { result ≡ spec.takes_here named token.now next.now }
{
    if named {
        is_end(next) && !is_end(token)
    } else {
        is_end(token)
    }
}

fn push_param(
    alloc: Global,
    params: &[Items<Text>],
    out: &mut Items<Text>,
) -> Result<(), AllocError>
    ensures { OnOk result (out.new ≡ out.old ++ spec.first_param params.now) }
{
    match params {
        [] => Ok(()),
        [param, ..] => copied(alloc, param.as_slice(), out),
    }
}

fn behind_first(params: &[Items<Text>]) -> &[Items<Text>]
    ensures { result.now ≡ drop 1 params.now }
{
    match params {
        [] => params,
        [_, rest @ ..] => rest,
    }
}

/// The parameters with the attributes that are kept of each, and what follows them.
fn push_params(
    alloc: Global,
    named: bool,
    params: &[Items<Text>],
    tokens: &[Text],
    out: &mut Items<Text>,
) -> Result<(), AllocError>
    ensures { OnOk result (out.new ≡ out.old ++ spec.dressed_params named 0 params.now tokens.now) }
{
    let mut params = params;
    let mut depth: u64 = 0;
    let mut rest = tokens;
    while let [token, more @ ..] = rest {
        let bytes = token.as_bytes();
        if depth == 0 && takes_here(named, bytes, at(more, 0)) {
            push_param(alloc, params, out)?;
        }
        push_word(alloc, out, bytes)?;
        if depth == 0 && is(bytes, b")") {
            return copied(alloc, more, out);
        }
        if depth == 0 && is(bytes, b",") {
            params = behind_first(params);
        }
        depth = depth_after(depth, bytes);
        rest = more;
    }
    Ok(())
}

/// The tokens up to the name and the bracket behind it, and then the parameters.
fn push_from(
    alloc: Global,
    named: bool,
    params: &[Items<Text>],
    tokens: &[Text],
    out: &mut Items<Text>,
) -> Result<(), AllocError>
    ensures { OnOk result (out.new ≡ out.old ++ spec.dressed_from named params.now tokens.now) }
{
    let mut rest = tokens;
    while let [token, more @ ..] = rest {
        push_word(alloc, out, token.as_bytes())?;
        match more {
            [] => return Ok(()),
            [bracket, behind @ ..] => {
                if begins(b"@", token.as_bytes()) {
                    push_word(alloc, out, bracket.as_bytes())?;
                    return push_params(alloc, named, params, behind, out);
                }
            }
        }
        rest = more;
    }
    Ok(())
}

fn push_signature(
    alloc: Global,
    kept: &Kept,
    tokens: &[Text],
    out: &mut Items<Text>,
) -> Result<(), AllocError>
    ensures { OnOk result (out.new ≡ out.old ++ spec.signature_with kept.now tokens.now) }
{
    let named = is_at(tokens, 0, b"define");
    push_word(alloc, out, at(tokens, 0))?;
    copied(alloc, kept.front.as_slice(), out)?;
    push_from(
        alloc,
        named,
        kept.params.as_slice(),
        tokens_from(tokens, 1),
        out,
    )
}

/// A function's line. A definition that the original hasn't is a part, and internal.
pub fn push_function(
    alloc: Global,
    kept: Option<&Kept>,
    tokens: &[Text],
    out: &mut Items<Text>,
) -> Result<(), AllocError>
    ensures { OnOk result (out.new ≡ out.old ++ spec.dressed_signature (option_map (λ k. k.now) kept.entry) tokens.now) }
{
    match kept {
        Some(kept) => push_signature(alloc, kept, tokens, out),
        None => {
            if is_at(tokens, 0, b"define") {
                push_word(alloc, out, b"define")?;
                push_word(alloc, out, b"internal")?;
                copied(alloc, tokens_from(tokens, 1), out)
            } else {
                copied(alloc, tokens, out)
            }
        }
    }
}

/// A global's line.
pub fn push_global(
    alloc: Global,
    kept: Option<&Kept>,
    tokens: &[Text],
    out: &mut Items<Text>,
) -> Result<(), AllocError>
    ensures { OnOk result (out.new ≡ out.old ++ spec.dressed_global (option_map (λ k. k.now) kept.entry) tokens.now) }
{
    match kept {
        None => copied(alloc, tokens, out),
        Some(kept) => {
            push_word(alloc, out, at(tokens, 0))?;
            push_word(alloc, out, b"=")?;
            copied(alloc, kept.front.as_slice(), out)?;
            copied(alloc, tokens_from(tokens, 2), out)
        }
    }
}
