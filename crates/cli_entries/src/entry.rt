//! Callable entries.

ghost use Rattle.std.specs.Prelude.{◌≡◌, IfOk, Some};
ghost use Rattle.cli_entries.specs.Entries.{word_as, words_for, has_int_result, is_entry, entry_named, call_of, call_at, entry_call};
ghost use Rattle.ir_model.specs.Names.{same_text};
ghost use Rattle.text_names.specs.Spelling.{spelling};

use crate::verdict::EntryCall;
use ir_base::{FuncId, Items, Name, Word};
use ir_model::{Function, IrType, Module, Node, Param};
use run_step::{bits, cut};
use std::alloc::{AllocError, Global};
use text_names::print_name;

fn word_as(ty: &IrType, number: i128) -> Option<Word>
    ensures { result ≡ word_as ty.now number }
{
    match ty.node() {
        Node::Int(width) => Some(Word {
            width: bits(*width),
            bits: cut(*width, number),
        }),
        _ => None,
    }
}

/// The arguments cut to the widths of the parameters, where these are integers and as many.
#[tactic(auto, using(crate::proofs::Arguments::with_more, crate::proofs::Arguments::with_none_left))]
fn words_for(
    alloc: Global,
    params: &[Param],
    numbers: &[i128],
) -> Result<Option<Items<Word>>, AllocError>
    ensures { IfOk result (λ r. r ≡ words_for params.now numbers.now) }
{
    let mut words = Items::new(alloc);
    let mut params = params;
    let mut numbers = numbers;
    loop {
        match params {
            [] => match numbers {
                [] => return Ok(Some(words)),
                [_number, _more @ ..] => return Ok(None),
            },
            [param, other_params @ ..] => match numbers {
                [] => return Ok(None),
                [number, other_numbers @ ..] => {
                    match word_as(&param.ty, *number) {
                        None => return Ok(None),
                        Some(word) => words.push(word)?,
                    }
                    params = other_params;
                    numbers = other_numbers;
                }
            },
        }
    }
}

fn has_int_result(result_type: &Option<IrType>) -> bool
    ensures { result ≡ has_int_result result_type.now }
{
    match result_type {
        None => true,
        Some(ty) => matches!(ty.node(), Node::Int(_)),
    }
}

fn is_entry(function: &Function) -> bool
    ensures { result ≡ is_entry function.now }
{
    !function.coroutine && has_int_result(&function.result)
}

fn is_spelled(alloc: Global, name: &Name, text: &[u8]) -> Result<bool, AllocError>
    ensures { IfOk result (λ b. b ≡ same_text (spelling name.now) text.now) }
{
    let mut written = Vec::new(alloc);
    print_name(name, &mut written)?;
    Ok(written.as_slice() == text)
}

/// The function whose name is spelled so.
fn entry_named(alloc: Global, source: &Module, text: &[u8]) -> Result<Option<FuncId>, AllocError>
    ensures { IfOk result (λ f. f ≡ entry_named source.now text.now) }
{
    let mut at: usize = 0;
    for function in source.functions.as_slice() {
        if is_spelled(alloc, &function.name, text)? {
            return Ok(Some(at));
        }
        match at.checked_add(1) {
            Some(next) => at = next,
            None => return Err(AllocError),
        }
    }
    Ok(None)
}

fn call_of(
    alloc: Global,
    func: FuncId,
    function: &Function,
    numbers: &[i128],
) -> Result<Option<EntryCall>, AllocError>
    ensures { IfOk result (λ c. c ≡ call_of func (Some function.now) numbers.now) }
{
    if !is_entry(function) {
        return Ok(None);
    }
    match words_for(alloc, function.params.as_slice(), numbers)? {
        None => Ok(None),
        Some(args) => Ok(Some(EntryCall { func, args })),
    }
}

/// The call of the entry that is spelled so, where it is callable with these arguments: a defined function, no coroutine,
/// with integers as parameters, as many as arguments, and an integer or no result.
pub fn entry_call(
    alloc: Global,
    source: &Module,
    text: &[u8],
    numbers: &[i128],
) -> Result<Option<EntryCall>, AllocError>
    ensures { IfOk result (λ c. c ≡ entry_call source.now text.now numbers.now) }
{
    match entry_named(alloc, source, text)? {
        None => Ok(None),
        Some(func) => match source.functions.get(func) {
            None => Ok(None),
            Some(function) => call_of(alloc, func, function, numbers),
        },
    }
}
