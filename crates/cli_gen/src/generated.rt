//! The generated module and its text.

ghost use Rattle.std.specs.Prelude.{◌≡◌, ◌≤◌, ◌++◌, IfOk, OnOk};
ghost use Rattle.text_printer.specs.Items.{module_text};
ghost use Rattle.cli_gen.specs.Generated.{coroutine_functions, declaration, declarations, generated_functions, generated_module};

use crate::coroutine::Coroutine;
use crate::function::coroutine_function;
use crate::main_function::main_function;
use crate::pieces::word;
use ir_base::Items;
use ir_model::{Declaration, Function, IntWidth, IrType, Module};
use std::alloc::{AllocError, Global};
use text_printer::print_module;

fn declaration(
    alloc: Global,
    name: &[u8],
    given: Option<IrType>,
    param: IrType,
) -> Result<Declaration, AllocError>
    ensures { IfOk result (λ d. d ≡ declaration name.now given param) }
{
    let mut params = Items::new(alloc);
    params.push(param)?;
    Ok(Declaration {
        name: word(alloc, name)?,
        result: given,
        params,
    })
}

fn declarations(alloc: Global) -> Result<Items<Declaration>, AllocError>
    ensures { IfOk result (λ x. x ≡ declarations) }
{
    let mut all = Items::new(alloc);
    all.push(declaration(alloc, b"print", None, IrType::int(IntWidth::I32))?)?;
    all.push(declaration(
        alloc,
        b"malloc",
        Some(IrType::pointer()),
        IrType::int(IntWidth::I64),
    )?)?;
    all.push(declaration(alloc, b"free", None, IrType::pointer())?)?;
    Ok(all)
}

#[tactic(auto, using(crate::proofs::Each::each_step))]
fn coroutine_functions(
    alloc: Global,
    coroutines: u8,
    suspends: u8,
) -> Result<Items<Function>, AllocError>
    ensures { IfOk result (λ x. x ≡ coroutine_functions coroutines suspends) }
{
    let mut all = Items::new(alloc);
    for number in 0..coroutines {
        all.push(coroutine_function(alloc, Coroutine { number, suspends })?)?;
    }
    Ok(all)
}

fn module_of(alloc: Global, seed: u32, coroutines: u8, suspends: u8) -> Result<Module, AllocError>
    ensures { IfOk result (λ m. m ≡ generated_module seed coroutines suspends) }
{
    let mut functions = coroutine_functions(alloc, coroutines, suspends)?;
    functions.push(main_function(alloc, seed, coroutines, suspends)?)?;
    Ok(Module {
        types: Items::new(alloc),
        globals: Items::new(alloc),
        declarations: declarations(alloc)?,
        functions,
    })
}

/// The generated module, with so many coroutines of so many suspends each. The seed says with which numbers they are called,
/// and in which order they are resumed.
pub fn generated_module(
    alloc: Global,
    seed: u64,
    coroutines: u64,
    suspends: u64,
) -> Result<Module, AllocError>
    requires seed { seed ≤ 1000000 }
    requires coroutines { (1 ≤ coroutines) × (coroutines ≤ 64) }
    requires suspends { (1 ≤ suspends) × (suspends ≤ 64) }
    ensures { IfOk result (λ m. m ≡ generated_module seed coroutines suspends) }
{
    module_of(alloc, seed as u32, coroutines as u8, suspends as u8)
}

/// The canonical text of the generated module.
pub fn generate(
    alloc: Global,
    seed: u64,
    coroutines: u64,
    suspends: u64,
) -> Result<Vec<u8>, AllocError>
    requires seed { seed ≤ 1000000 }
    requires coroutines { (1 ≤ coroutines) × (coroutines ≤ 64) }
    requires suspends { (1 ≤ suspends) × (suspends ≤ 64) }
    ensures { IfOk result (λ text. text.items ≡ module_text (generated_module seed coroutines suspends)) }
{
    print_module(alloc, &generated_module(alloc, seed, coroutines, suspends)?)
}
