//! Readers of the heads of functions, and of whole ones.

ghost use Rattle.std.specs.Prelude.{◌≡◌, [], ◌∷◌, map, Some, IfOk, ◌<◌};
ghost use Rattle.text_lexer.specs.Lists.{all_at, front};
ghost use Rattle.text_reader.specs.Reading.{Gives};
ghost use Rattle.text_parser.specs.Functions.{name_at, param_at, next_param_at, params_at, head_at, declaration_of, declare_at, name_or, counted, named_params, define_at};

use crate::known::Known;
use ir_base::{Items, Name};
use ir_model::{Declaration, Function, IrType, Param};
use std::alloc::{AllocError, Global};
use text_blocks::{blocks_of, numbered, result_of};
use text_reader::{
    Locals, ReadError, attrs_of, behind_attrs, global_of, mark_of, name_of, pairs_of, type_of,
};
use text_symbols::{Mark, Sym};

/// A parameter as it is written.
#[derive(Drop)]
pub struct Written {
    pub ty: IrType,
    pub name: Option<Name>,
}

/// A function's result, name and parameters.
#[derive(Drop)]
pub struct Head {
    pub result: Option<IrType>,
    pub name: Name,
    pub params: Items<Written>,
}

/// A parameter's name, which may be left out.
fn name_at_of(alloc: Global, symbols: &[Sym]) -> Result<(Option<Name>, &[Sym]), ReadError>
    ensures { Gives (λ x. (x.0, x.1.now)) result (name_at symbols.now) }
{
    match symbols {
        [Sym::Local(ident), rest @ ..] => Ok((Some(name_of(alloc, ident)?), rest)),
        _ => Ok((None, symbols)),
    }
}

#[tactic(auto, unfolding(crate::specs::Functions::param_at))]
fn param_of(alloc: Global, symbols: &[Sym]) -> Result<(Written, &[Sym]), ReadError>
    ensures { Gives (λ x. (x.0, x.1.now)) result (param_at symbols.now) }
{
    let (ty, rest) = type_of(alloc, symbols)?;
    let rest = behind_attrs(alloc, rest)?;
    let (name, rest) = name_at_of(alloc, rest)?;
    Ok((Written { ty, name }, rest))
}

fn next_param_of(alloc: Global, symbols: &[Sym]) -> Result<(Written, &[Sym]), ReadError>
    ensures { Gives (λ x. (x.0, x.1.now)) result (next_param_at symbols.now) }
{
    param_of(alloc, mark_of(symbols, Mark::Comma)?)
}

/// The first parameter and those that follow.
#[tactic(auto, using(crate::proofs::ParamSteps::params_turn, crate::proofs::ParamSteps::params_end, crate::proofs::ParamSteps::params_stuck))]
fn params_behind(
    alloc: Global,
    first: Written,
    symbols: &[Sym],
) -> Result<(Items<Written>, &[Sym]), ReadError>
    ensures { Gives (λ x. (x.0, x.1.now)) result (Some (front first (all_at next_param_at symbols.now))) }
{
    let mut all = Items::new(alloc);
    all.push(first)?;
    let mut rest = symbols;
    loop {
        match next_param_of(alloc, rest) {
            Ok((param, after)) => {
                if after.len() >= rest.len() {
                    return Ok((all, rest));
                }
                all.push(param)?;
                rest = after;
            }
            Err(ReadError::Syntax) => return Ok((all, rest)),
            Err(ReadError::Memory) => return Err(ReadError::Memory),
        }
    }
}

/// Parameters with commas between, or none, and the bracket that closes them.
#[tactic(auto, unfolding(crate::specs::Functions::params_at))]
fn params_of(alloc: Global, symbols: &[Sym]) -> Result<(Items<Written>, &[Sym]), ReadError>
    ensures { Gives (λ x. (x.0, x.1.now)) result (params_at symbols.now) }
{
    if let [Sym::Mark(Mark::CloseRound), rest @ ..] = symbols {
        return Ok((Items::new(alloc), rest));
    }
    let (first, rest) = param_of(alloc, symbols)?;
    let (all, rest) = params_behind(alloc, first, rest)?;
    let rest = mark_of(rest, Mark::CloseRound)?;
    Ok((all, rest))
}

/// A result, a name and parameters.
#[tactic(auto, unfolding(crate::specs::Functions::head_at))]
fn head_of(alloc: Global, symbols: &[Sym]) -> Result<(Head, &[Sym]), ReadError>
    ensures { Gives (λ x. (x.0, x.1.now)) result (head_at symbols.now) }
{
    let rest = behind_attrs(alloc, symbols)?;
    let (function_result, rest) = result_of(alloc, rest)?;
    let (name, rest) = global_of(alloc, rest)?;
    let rest = mark_of(rest, Mark::OpenRound)?;
    let (params, rest) = params_of(alloc, rest)?;
    Ok((
        Head {
            result: function_result,
            name,
            params,
        },
        rest,
    ))
}

/// The parameters' types.
fn types_of(alloc: Global, params: Items<Written>) -> Result<Items<IrType>, AllocError>
    ensures { IfOk result (λ types. types ≡ map (λ p. p.ty) params) }
{
    let mut types = Items::new(alloc);
    for param in params.into_vec() {
        types.push(param.ty)?;
    }
    Ok(types)
}

/// What stands behind `declare`.
#[tactic(auto, unfolding(crate::specs::Functions::declare_at))]
pub fn declare_of(alloc: Global, symbols: &[Sym]) -> Result<(Declaration, &[Sym]), ReadError>
    ensures { Gives (λ x. (x.0, x.1.now)) result (declare_at symbols.now) }
{
    let (head, rest) = head_of(alloc, symbols)?;
    let rest = behind_attrs(alloc, rest)?;
    let Head {
        result: function_result,
        name,
        params,
    } = head;
    let params = types_of(alloc, params)?;
    Ok((
        Declaration {
            name,
            result: function_result,
            params,
        },
        rest,
    ))
}

/// The name of a parameter, where so many before it have a number.
fn name_or(name: Option<Name>, numbers: usize) -> Option<Name>
    ensures { result ≡ name_or name numbers }
{
    match name {
        Some(name) => Some(name),
        None => numbered(numbers),
    }
}

/// How many have a number with this one.
fn counted(name: &Name, numbers: usize) -> usize
    requires { numbers < usize.MAX }
    ensures { result ≡ counted name.now numbers }
{
    match name {
        Name::Number(_) => numbers + 1,
        Name::Text(_) => numbers,
    }
}

/// The parameters by their names, and how many have a number.
#[tactic(auto, using(crate::proofs::ParamSteps::named_begun, crate::proofs::ParamSteps::named_turn, crate::proofs::ParamSteps::named_fault, crate::proofs::ParamSteps::named_done))]
fn named_params(
    alloc: Global,
    names: &mut Locals,
    params: Items<Written>,
) -> Result<(Items<Param>, usize), ReadError>
    ensures { Gives (λ x. (x.0, names.new, x.1)) result (named_params names.old 0 params) }
{
    let mut all = Items::new(alloc);
    let mut numbers = 0;
    for param in params.into_vec() {
        let Written { ty, name } = param;
        let Some(name) = name_or(name, numbers) else {
            return Err(ReadError::Syntax);
        };
        numbers = counted(&name, numbers);
        let id = names.place(name)?;
        all.push(Param { ty, name: id })?;
    }
    Ok((all, numbers))
}

/// What stands behind `define`.
#[tactic(auto, unfolding(crate::specs::Functions::define_at))]
pub fn define_of<'a>(
    alloc: Global,
    known: &Known,
    symbols: &'a [Sym],
) -> Result<(Function, &'a [Sym]), ReadError>
    ensures { Gives (λ x. (x.0, x.1.now)) result (define_at known.now symbols.entry.now) }
{
    let (head, rest) = head_of(alloc, symbols)?;
    let (coroutine, rest) = attrs_of(alloc, &known.groups, rest)?;
    let Head {
        result: function_result,
        name,
        params,
    } = head;
    let mut names = Locals::new(alloc);
    let (params, numbers) = named_params(alloc, &mut names, params)?;
    let (blocks, rest) = blocks_of(alloc, &known.types, &mut names, numbers, pairs_of(rest))?;
    let names = names.to_items(alloc)?;
    Ok((
        Function {
            name,
            result: function_result,
            params,
            coroutine,
            blocks,
            names,
        },
        rest,
    ))
}
