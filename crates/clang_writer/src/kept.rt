//! What native code needs of a line of the original.

ghost use Rattle.std.specs.Prelude.{◌≡◌, ◌++◌, IfOk, OnOk};
ghost use Rattle.clang_tokens.specs.declared.brackets.Sret.{Sret as TheSret};
ghost use Rattle.clang_writer.specs.Kept as spec;

use clang_tokens::{
    Sret, at, begins, depth_after, first_line, is, is_at, of_sret, push_word, sret_after,
    tokens_from, tokens_of,
};
use ir_base::{Items, Name, Text};
use ir_tables::Named;
use std::alloc::{AllocError, Global};

/// What is kept of a function or a global (LLVM Language Reference, "Linkage Types", "Visibility Styles", "Runtime
/// Preemption Specifiers" and "Parameter Attributes").
#[derive(Debug, Drop)]
pub struct Kept {
    /// Its name, as it is spelled.
    pub name: Name,
    /// The words before its name, or before a global's type.
    pub front: Items<Text>,
    /// The attributes of each parameter.
    pub params: Items<Items<Text>>,
}

impl Named for Kept {
    ghost called = { λ k. k.name };

    fn name(&self) -> &Name {
        &self.name
    }
}

fn is_passing(token: &[u8]) -> bool
    ensures { result ≡ spec.is_passing token.now }
{
    is(token, b"zeroext") || is(token, b"signext") || is(token, b"inreg") || is(token, b"noundef")
}

fn is_linkage(token: &[u8]) -> bool
    ensures { result ≡ spec.is_linkage token.now }
{
    is(token, b"private")
        || is(token, b"internal")
        || is(token, b"available_externally")
        || is(token, b"linkonce")
        || is(token, b"weak")
        || is(token, b"common")
        || is(token, b"appending")
        || is(token, b"extern_weak")
        || is(token, b"linkonce_odr")
        || is(token, b"weak_odr")
        || is(token, b"external")
}

fn is_visibility(token: &[u8]) -> bool
    ensures { result ≡ spec.is_visibility token.now }
{
    is(token, b"dso_local")
        || is(token, b"dso_preemptable")
        || is(token, b"default")
        || is(token, b"hidden")
        || is(token, b"protected")
        || is(token, b"dllimport")
        || is(token, b"dllexport")
}

fn is_front(token: &[u8]) -> bool
    ensures { result ≡ spec.is_front token.now }
{
    is_linkage(token) || is_visibility(token) || is_passing(token)
}

fn ends_front(token: &[u8]) -> bool
    ensures { result ≡ spec.ends_front token.now }
{
    begins(b"@", token) || is(token, b"global") || is(token, b"constant")
}

/// The words before a name that are kept.
fn front_of(alloc: Global, tokens: &[Text]) -> Result<Items<Text>, AllocError>
    ensures { IfOk result (λ r. r ≡ spec.front_of tokens.now) }
{
    let mut front = Items::new(alloc);
    for token in tokens {
        let bytes = token.as_bytes();
        if ends_front(bytes) {
            return Ok(front);
        }
        if is_front(bytes) {
            push_word(alloc, &mut front, bytes)?;
        }
    }
    Ok(front)
}

/// The first name of a function or global.
pub fn name_in(tokens: &[Text]) -> &[u8]
    ensures { result.now ≡ spec.name_in tokens.now }
{
    for token in tokens {
        if begins(b"@", token.as_bytes()) {
            return token.as_bytes();
        }
    }
    b""
}

/// The tokens behind the first name and one more.
fn behind_name(tokens: &[Text]) -> &[Text]
    ensures { result.now ≡ spec.behind_name tokens.now }
{
    let mut rest = tokens;
    while let [token, more @ ..] = rest {
        if begins(b"@", token.as_bytes()) {
            return tokens_from(more, 1);
        }
        rest = more;
    }
    rest
}

/// What a token does to parameters.
#[derive(Clone, Copy, Debug, PartialEq, Eq)]
pub enum Role {
    /// It ends the last one.
    Closes,
    /// It ends one of them.
    Parts,
    /// It is a part of one.
    Inside,
}

fn role_of(depth: u64, token: &[u8]) -> Role
    ensures { result ≡ spec.role_of depth token.now }
{
    if depth != 0 {
        Role::Inside
    } else if is(token, b")") {
        Role::Closes
    } else if is(token, b",") {
        Role::Parts
    } else {
        Role::Inside
    }
}

/// Puts a token that is kept behind others.
fn push_kept(
    alloc: Global,
    sret: Sret,
    token: &[u8],
    param: &mut Items<Text>,
) -> Result<(), AllocError>
    ensures { OnOk result (param.new ≡ param.old ++ spec.kept_tokens sret token.now) }
{
    if of_sret(sret, token) || is_passing(token) {
        push_word(alloc, param, token)
    } else {
        Ok(())
    }
}

/// What is kept of each parameter.
#[tactic(auto, using(crate::proofs::Bounds::within, crate::proofs::Bounds::next_bound, crate::proofs::Bounds::depth_bound))]
fn params_of(alloc: Global, tokens: &[Text]) -> Result<Items<Items<Text>>, AllocError>
    ensures { IfOk result (λ r. r ≡ spec.params_of 0 TheSret.Outside tokens.now) }
{
    let mut params = Items::new(alloc);
    let mut param = Items::new(alloc);
    let mut depth: u64 = 0;
    let mut sret = Sret::Outside;
    for token in tokens {
        let bytes = token.as_bytes();
        match role_of(depth, bytes) {
            Role::Closes => {
                params.push(param)?;
                return Ok(params);
            }
            Role::Parts => {
                params.push(param)?;
                param = Items::new(alloc);
                depth = 0;
                sret = Sret::Outside;
            }
            Role::Inside => {
                push_kept(alloc, sret, bytes, &mut param)?;
                depth = depth_after(depth, bytes);
                sret = sret_after(sret, bytes);
            }
        }
    }
    params.push(param)?;
    Ok(params)
}

/// Whether a line begins a function or declares one.
pub fn is_signature(tokens: &[Text]) -> bool
    ensures { result ≡ spec.is_signature tokens.now }
{
    is_at(tokens, 0, b"define") || is_at(tokens, 0, b"declare")
}

/// Whether a line is a global's.
pub fn is_global(tokens: &[Text]) -> bool
    ensures { result ≡ spec.is_global tokens.now }
{
    begins(b"@", at(tokens, 0)) && is_at(tokens, 1, b"=")
}

fn signature_of(alloc: Global, tokens: &[Text]) -> Result<Kept, AllocError>
    ensures { IfOk result (λ r. r ≡ spec.signature_of tokens.now) }
{
    Ok(Kept {
        name: Name::Text(Text::from_bytes(alloc, name_in(tokens))?),
        front: front_of(alloc, tokens_from(tokens, 1))?,
        params: params_of(alloc, behind_name(tokens))?,
    })
}

fn global_of(alloc: Global, tokens: &[Text]) -> Result<Kept, AllocError>
    ensures { IfOk result (λ r. r ≡ spec.global_of tokens.now) }
{
    Ok(Kept {
        name: Name::Text(Text::from_bytes(alloc, at(tokens, 0))?),
        front: front_of(alloc, tokens_from(tokens, 2))?,
        params: Items::new(alloc),
    })
}

/// What is kept of a function's line or a global's.
fn kept_of(alloc: Global, tokens: &[Text]) -> Result<Option<Kept>, AllocError>
    ensures { IfOk result (λ r. r ≡ spec.kept_of tokens.now) }
{
    if is_signature(tokens) {
        Ok(Some(signature_of(alloc, tokens)?))
    } else if is_global(tokens) {
        Ok(Some(global_of(alloc, tokens)?))
    } else {
        Ok(None)
    }
}

/// What is kept of the functions and globals of a text.
#[tactic(auto, using(crate::proofs::Lines::kept_turn, crate::proofs::Lines::kept_end))]
pub fn kept_in(alloc: Global, original: &[u8]) -> Result<Items<Kept>, AllocError>
    ensures { IfOk result (λ r. r ≡ spec.kept_in original.now) }
{
    let mut all = Items::new(alloc);
    let mut rest = original;
    while !rest.is_empty() {
        let (line, behind) = first_line(rest);
        let listed = tokens_of(alloc, line)?;
        if let Some(kept) = kept_of(alloc, listed.tokens.as_slice())? {
            all.push(kept)?;
        }
        rest = behind;
    }
    Ok(all)
}
