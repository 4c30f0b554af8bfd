//! The pass over blocks, functions and the module.

ghost use Rattle.std.specs.Prelude.{◌≡◌, ℕ, ℤ, true, List, IfOk, map, filter};
ghost use Rattle.run_agreement.specs.Agreements.{AgreesWithin};
ghost use Rattle.ir_base.specs.declared.outcome.Word.{Word as TheWord};
ghost use Rattle.pass_cleanup.specs.Cleanable.{IsCleanable};
ghost use Rattle.pass_cleanup.specs.Cleanup.{is_coro, is_kept_instr, is_kept_callee, is_kept_declaration, clean_block, clean_function, clean_module};
ghost use Rattle.pass_cleanup.specs.Free.{calls_id_alone, is_free_module};
ghost use Rattle.run_plain.specs.Plain.{PlainAt};

use ir_base::{Data, Items};
use ir_model::{Block, Callee, Declaration, Function, Instr, Intrinsic, Module, callee_of};
use std::alloc::{AllocError, Global};

fn is_coro(intrinsic: Intrinsic) -> bool
    ensures { result ≡ is_coro intrinsic }
{
    !matches!(
        intrinsic,
        Intrinsic::LifetimeStart
            | Intrinsic::LifetimeEnd
            | Intrinsic::MemcpyI64
            | Intrinsic::MemcpyI32
    )
}

fn is_kept_instr(instr: &Instr) -> bool
    ensures { result ≡ is_kept_instr instr.now }
{
    !matches!(
        instr,
        Instr::Call {
            callee: Callee::Intrinsic(Intrinsic::CoroId),
            ..
        }
    )
}

fn is_kept_callee(callee: &Callee) -> bool
    ensures { result ≡ is_kept_callee callee.now }
{
    match callee {
        Callee::Intrinsic(intrinsic) => !is_coro(*intrinsic),
        _ => true,
    }
}

fn is_kept_declaration(alloc: Global, declaration: &Declaration) -> Result<bool, AllocError>
    ensures { IfOk result (λ b. b ≡ is_kept_declaration declaration.now) }
{
    let callee = callee_of(declaration.name.copied(alloc)?);
    Ok(is_kept_callee(&callee))
}

fn clean_instrs(alloc: Global, instrs: &[Instr]) -> Result<Items<Instr>, AllocError>
    ensures { IfOk result (λ x. x ≡ filter is_kept_instr instrs.now) }
{
    let mut kept = Items::new(alloc);
    for instr in instrs {
        if is_kept_instr(instr) {
            kept.push(instr.copied(alloc)?)?;
        }
    }
    Ok(kept)
}

fn clean_declarations(
    alloc: Global,
    declarations: &[Declaration],
) -> Result<Items<Declaration>, AllocError>
    ensures { IfOk result (λ x. x ≡ filter is_kept_declaration declarations.now) }
{
    let mut kept = Items::new(alloc);
    for declaration in declarations {
        if is_kept_declaration(alloc, declaration)? {
            kept.push(declaration.copied(alloc)?)?;
        }
    }
    Ok(kept)
}

fn clean_block(alloc: Global, block: &Block) -> Result<Block, AllocError>
    ensures { IfOk result (λ x. x ≡ clean_block block.now) }
{
    Ok(Block {
        label: block.label,
        phis: block.phis.copied(alloc)?,
        instrs: clean_instrs(alloc, block.instrs.as_slice())?,
        term: block.term.copied(alloc)?,
    })
}

fn clean_blocks(alloc: Global, blocks: &[Block]) -> Result<Items<Block>, AllocError>
    ensures { IfOk result (λ x. x ≡ map clean_block blocks.now) }
{
    let mut all = Items::new(alloc);
    for block in blocks {
        all.push(clean_block(alloc, block)?)?;
    }
    Ok(all)
}

fn clean_function(alloc: Global, function: &Function) -> Result<Function, AllocError>
    ensures { IfOk result (λ x. x ≡ clean_function function.now) }
{
    Ok(Function {
        name: function.name.copied(alloc)?,
        result: Data::copied(&function.result, alloc)?,
        params: function.params.copied(alloc)?,
        coroutine: function.coroutine,
        blocks: clean_blocks(alloc, function.blocks.as_slice())?,
        names: function.names.copied(alloc)?,
    })
}

fn clean_functions(alloc: Global, functions: &[Function]) -> Result<Items<Function>, AllocError>
    ensures { IfOk result (λ x. x ≡ map clean_function functions.now) }
{
    let mut all = Items::new(alloc);
    for function in functions {
        all.push(clean_function(alloc, function)?)?;
    }
    Ok(all)
}

/// The module without the calls of `coro.id` and without the declarations of the coro intrinsics ("Coroutines in LLVM",
/// the pass CoroCleanup). Functions keep their names and types; types and globals stay. Where the source calls no coro
/// intrinsic but `coro.id`, the result calls and declares none. Of a module as the pass before leaves it each run agrees
/// with the same run of the result, step by step, but for the steps of `coro.id`.
pub fn clean(alloc: Global, source: &Module) -> Result<Module, AllocError>
    ensures cleaned { IfOk result (λ x. x ≡ clean_module source.now) }
    ensures free { IfOk result (λ x. calls_id_alone source.now ≡ true → is_free_module x ≡ true) }
    ensures agrees { IfOk result (λ x. IsCleanable source.now → (entry : ℕ) (args : List TheWord) (answers : List ℤ) → AgreesWithin 1 (PlainAt source.now entry args answers) (PlainAt x entry args answers)) }
{
    Ok(Module {
        types: source.types.copied(alloc)?,
        globals: source.globals.copied(alloc)?,
        declarations: clean_declarations(alloc, source.declarations.as_slice())?,
        functions: clean_functions(alloc, source.functions.as_slice())?,
    })
}
