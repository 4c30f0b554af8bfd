//! The five ways in which the handle of a site may be used.

ghost use Rattle.std.specs.Prelude.{◌≡◌, ◌∷◌, [], OnOk};
ghost use Rattle.rule_shape.specs.Uses.{counted_all};
ghost use Rattle.elide_sites.specs.Handles.{beside_null, handles, takes_handle as takes_handle_of};
ghost use Rattle.ir_paths.specs.Windows.{operand_at};

use elide_shape::Choice;
use ir_calls::{is_null, operand_of};
use ir_model::{Arg, Callee, Instr, Intrinsic, Operand};
use rule_shape::Uses;
use std::alloc::AllocError;

fn takes_handle(intrinsic: Intrinsic) -> bool
    ensures { result ≡ takes_handle_of intrinsic }
{
    matches!(
        intrinsic,
        Intrinsic::CoroResume
            | Intrinsic::CoroDestroy
            | Intrinsic::CoroDone
            | Intrinsic::CoroPromise
    )
}

/// Counts what is compared with null.
fn count_beside_null(counts: &mut Uses, left: &Operand, right: &Operand) -> Result<(), AllocError>
    ensures { OnOk result (counts.new ≡ counted_all counts.old (beside_null left.now right.now)) }
{
    if is_null(right) {
        counts.add(left)
    } else if is_null(left) {
        counts.add(right)
    } else {
        Ok(())
    }
}

fn count_first(counts: &mut Uses, args: &[Arg]) -> Result<(), AllocError>
    ensures { OnOk result (counts.new ≡ counted_all counts.old (operand_at args.now 0 ∷ [])) }
{
    match operand_of(args, 0) {
        None => Ok(()),
        Some(operand) => counts.add(operand),
    }
}

/// The operands that are used as the handle of a site may be.
#[derive(Clone, Copy, Drop)]
pub struct Handles;

impl Choice for Handles {
    ghost chosen = { λ t. handles };

    fn count(&self, counts: &mut Uses, instr: &Instr) -> Result<(), AllocError> {
        match instr {
            Instr::Icmp { left, right, .. } => count_beside_null(counts, left, right),
            Instr::Call {
                callee: Callee::Intrinsic(intrinsic),
                args,
                ..
            } => {
                if takes_handle(*intrinsic) {
                    count_first(counts, args.as_slice())
                } else {
                    Ok(())
                }
            }
            _ => Ok(()),
        }
    }
}
