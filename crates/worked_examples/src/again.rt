//! Modules that are printed and read again.

ghost use Rattle.std.specs.Prelude.{IfOk};
ghost use Rattle.worked_examples.specs.ReadAgain.{IsPrintedAgain, IsReadAgain};

use ir_base::Data;
use ir_model::Module;
use std::alloc::{AllocError, Global};
use text_parser::{Parsed, parse};
use text_printer::print_module;

/// Whether the printed text of a module stands for the same module.
#[tactic(auto, using(crate::proofs::ReadingAgain::same_again, crate::proofs::ReadingAgain::none_again))]
fn is_printed_again(alloc: Global, first: &Module) -> Result<bool, AllocError>
    ensures { IfOk result (λ b. IsPrintedAgain first.now b) }
{
    let printed = print_module(alloc, first)?;
    match parse(alloc, &printed)? {
        Parsed::Module(second) => Ok(first.is_same(&second)),
        Parsed::Syntax { .. } => Ok(false),
    }
}

/// Whether a text stands for a module whose printed text stands for the same module: of a text of bytes that is whether it
/// stands for one at all.
#[tactic(auto, using(crate::proofs::ReadingAgain::nothing_read, crate::proofs::ReadingAgain::module_read))]
pub fn is_read_again(alloc: Global, text: &[u8]) -> Result<bool, AllocError>
    ensures { IfOk result (λ b. IsReadAgain text.now b) }
{
    match parse(alloc, text)? {
        Parsed::Module(first) => is_printed_again(alloc, &first),
        Parsed::Syntax { .. } => Ok(false),
    }
}
