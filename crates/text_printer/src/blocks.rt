//! The text of phis, terminators and blocks.

ghost use Rattle.std.specs.Prelude.{◌≡◌, ◌++◌, OnOk, codes};
ghost use Rattle.text_canonical.specs.canonical.Blocks.{all_incoming_text, block_text, blocks_text, case_text, cases_text, incoming_text, instrs_text, more_incoming_text, phi_text, phis_text, term_text};
ghost use Rattle.text_canonical.specs.canonical.Operands.{arg_text, label_text, operand_text};

use crate::instrs::push_instr;
use ir_base::{Name, ValueId};
use ir_model::{Arg, Block, Case, Incoming, Instr, Operand, Phi, Terminator};
use std::alloc::AllocError;
use text_operands::{push_arg, push_label, push_local, push_name, push_operand, push_type};

fn push_incoming(names: &[Name], incoming: &Incoming, out: &mut Vec<u8>) -> Result<(), AllocError>
    ensures { OnOk result (out.new.items ≡ out.old.items ++ incoming_text names.now incoming.now) }
{
    out.extend_from_slice(b"[ ")?;
    push_operand(names, &incoming.value, out)?;
    out.extend_from_slice(b", ")?;
    push_local(names, incoming.from, out)?;
    out.extend_from_slice(b" ]")
}

fn push_more_incoming(names: &[Name], all: &[Incoming], out: &mut Vec<u8>) -> Result<(), AllocError>
    ensures { OnOk result (out.new.items ≡ out.old.items ++ more_incoming_text names.now all.now) }
{
    for incoming in all {
        out.extend_from_slice(b", ")?;
        push_incoming(names, incoming, out)?;
    }
    Ok(())
}

fn push_all_incoming(names: &[Name], all: &[Incoming], out: &mut Vec<u8>) -> Result<(), AllocError>
    ensures { OnOk result (out.new.items ≡ out.old.items ++ all_incoming_text names.now all.now) }
{
    let [first, others @ ..] = all else {
        return Ok(());
    };
    push_incoming(names, first, out)?;
    push_more_incoming(names, others, out)
}

fn push_phi(names: &[Name], phi: &Phi, out: &mut Vec<u8>) -> Result<(), AllocError>
    ensures { OnOk result (out.new.items ≡ out.old.items ++ phi_text names.now phi.now) }
{
    push_local(names, phi.result, out)?;
    out.extend_from_slice(b" = phi ")?;
    push_type(&phi.ty, out)?;
    out.push(b' ')?;
    push_all_incoming(names, phi.incoming.as_slice(), out)
}

fn push_phis(names: &[Name], phis: &[Phi], out: &mut Vec<u8>) -> Result<(), AllocError>
    ensures { OnOk result (out.new.items ≡ out.old.items ++ phis_text names.now phis.now) }
{
    for phi in phis {
        out.extend_from_slice(b"  ")?;
        push_phi(names, phi, out)?;
        out.push(b'\n')?;
    }
    Ok(())
}

fn push_instrs(names: &[Name], instrs: &[Instr], out: &mut Vec<u8>) -> Result<(), AllocError>
    ensures { OnOk result (out.new.items ≡ out.old.items ++ instrs_text names.now instrs.now) }
{
    for instr in instrs {
        out.extend_from_slice(b"  ")?;
        push_instr(names, instr, out)?;
        out.push(b'\n')?;
    }
    Ok(())
}

fn push_case(names: &[Name], case: &Case, out: &mut Vec<u8>) -> Result<(), AllocError>
    ensures { OnOk result (out.new.items ≡ out.old.items ++ case_text names.now case.now) }
{
    push_arg(names, &case.arg, out)?;
    out.extend_from_slice(b", ")?;
    push_label(names, case.target, out)
}

fn push_cases(names: &[Name], cases: &[Case], out: &mut Vec<u8>) -> Result<(), AllocError>
    ensures { OnOk result (out.new.items ≡ out.old.items ++ cases_text names.now cases.now) }
{
    for case in cases {
        push_case(names, case, out)?;
        out.push(b' ')?;
    }
    Ok(())
}

fn push_branch(
    names: &[Name],
    cond: &Operand,
    yes: ValueId,
    no: ValueId,
    out: &mut Vec<u8>,
) -> Result<(), AllocError>
    ensures { OnOk result (out.new.items ≡ out.old.items
        ++ (codes "br i1 " ++ operand_text names.now cond.now ++ codes ", " ++ label_text names.now yes ++ codes ", " ++ label_text names.now no)) }
{
    out.extend_from_slice(b"br i1 ")?;
    push_operand(names, cond, out)?;
    out.extend_from_slice(b", ")?;
    push_label(names, yes, out)?;
    out.extend_from_slice(b", ")?;
    push_label(names, no, out)
}

fn push_switch(
    names: &[Name],
    arg: &Arg,
    default: ValueId,
    cases: &[Case],
    out: &mut Vec<u8>,
) -> Result<(), AllocError>
    ensures { OnOk result (out.new.items ≡ out.old.items
        ++ (codes "switch " ++ arg_text names.now arg.now ++ codes ", " ++ label_text names.now default ++ codes " [ " ++ cases_text names.now cases.now ++ codes "]")) }
{
    out.extend_from_slice(b"switch ")?;
    push_arg(names, arg, out)?;
    out.extend_from_slice(b", ")?;
    push_label(names, default, out)?;
    out.extend_from_slice(b" [ ")?;
    push_cases(names, cases, out)?;
    out.push(b']')?;
    Ok(())
}

fn push_term(names: &[Name], term: &Terminator, out: &mut Vec<u8>) -> Result<(), AllocError>
    ensures { OnOk result (out.new.items ≡ out.old.items ++ term_text names.now term.now) }
{
    match term {
        Terminator::Jump(target) => {
            out.extend_from_slice(b"br ")?;
            push_label(names, *target, out)
        }
        Terminator::Branch { cond, yes, no } => push_branch(names, cond, *yes, *no, out),
        Terminator::Switch {
            arg,
            default,
            cases,
        } => push_switch(names, arg, *default, cases.as_slice(), out),
        Terminator::Ret(None) => out.extend_from_slice(b"ret void"),
        Terminator::Ret(Some(arg)) => {
            out.extend_from_slice(b"ret ")?;
            push_arg(names, arg, out)
        }
        Terminator::Unreachable => out.extend_from_slice(b"unreachable"),
    }
}

fn push_block(names: &[Name], block: &Block, out: &mut Vec<u8>) -> Result<(), AllocError>
    ensures { OnOk result (out.new.items ≡ out.old.items ++ block_text names.now block.now) }
{
    push_name(names, block.label, out)?;
    out.extend_from_slice(b":\n")?;
    push_phis(names, block.phis.as_slice(), out)?;
    push_instrs(names, block.instrs.as_slice(), out)?;
    out.extend_from_slice(b"  ")?;
    push_term(names, &block.term, out)?;
    out.push(b'\n')?;
    Ok(())
}

/// Writes blocks.
pub fn push_blocks(names: &[Name], blocks: &[Block], out: &mut Vec<u8>) -> Result<(), AllocError>
    ensures { OnOk result (out.new.items ≡ out.old.items ++ blocks_text names.now blocks.now) }
{
    for block in blocks {
        push_block(names, block, out)?;
    }
    Ok(())
}
