//! One walk over the text of a function, which finds for all values at once whether they are used in a block that doesn't make
//! them before.

ghost use Rattle.std.specs.Prelude.{◌≡◌, ◌++◌, Some, map};
ghost use Rattle.rule_uses.specs.Uses.{local_of};
ghost use Rattle.ir_parts.specs.Contents.{arg_operands, callee_operands, ending_operands, instr_operands, result_of as result_of_instr};
ghost use Rattle.frame_crossing.specs.OneWalk.{instrs_far, instrs_made, is_made as is_made_at, phis_made, with_result, with_use, with_uses};

use ir_base::{Items, ValueId};
use ir_model::{Arg, Callee, Case, Instr, Operand, Phi, Terminator};
use ir_parts::result_of;

// ---- made values

/// Whether the value was made last in the block of a mark.
fn is_made(made: &Items<usize>, mark: usize, value: ValueId) -> bool
    ensures { result ≡ is_made_at made.now mark value }
{
    match made.get(value) {
        None => false,
        Some(last) => *last == mark,
    }
}

/// The phis of a block make their results.
pub fn make_phis(made: &mut Items<usize>, mark: usize, phis: &[Phi])
    ensures { made.new ≡ phis_made mark made.old phis.now }
{
    for phi in phis {
        made.set(phi.result, mark);
    }
}

fn make(made: &mut Items<usize>, mark: usize, value: Option<ValueId>)
    ensures { made.new ≡ with_result mark made.old value }
{
    match value {
        None => {}
        Some(value) => made.set(value, mark),
    }
}

// ---- used values

fn see_value(made: &Items<usize>, mark: usize, far: &mut Items<bool>, value: ValueId)
    ensures { far.new ≡ with_use made.now mark far.old (Some value) }
{
    if !is_made(made, mark, value) {
        far.set(value, true);
    }
}

fn see_operand(made: &Items<usize>, mark: usize, far: &mut Items<bool>, operand: &Operand)
    ensures { far.new ≡ with_use made.now mark far.old (local_of operand.now) }
{
    match operand {
        Operand::Local(value) => see_value(made, mark, far, *value),
        _ => {}
    }
}

fn see_args(made: &Items<usize>, mark: usize, far: &mut Items<bool>, args: &[Arg])
    ensures { far.new ≡ with_uses made.now mark far.old (arg_operands args.now) }
{
    for arg in args {
        see_operand(made, mark, far, &arg.value);
    }
}

fn see_cases(made: &Items<usize>, mark: usize, far: &mut Items<bool>, cases: &[Case])
    ensures { far.new ≡ with_uses made.now mark far.old (map (λ k. k.arg.value) cases.now) }
{
    for case in cases {
        see_operand(made, mark, far, &case.arg.value);
    }
}

fn see_callee(made: &Items<usize>, mark: usize, far: &mut Items<bool>, callee: &Callee)
    ensures { far.new ≡ with_uses made.now mark far.old (callee_operands callee.now) }
{
    match callee {
        Callee::Local(value) => see_value(made, mark, far, *value),
        _ => {}
    }
}

#[tactic(auto, using(crate::proofs::OneWalking::with_uses_append))]
fn see_call(made: &Items<usize>, mark: usize, far: &mut Items<bool>, callee: &Callee, args: &[Arg])
    ensures { far.new ≡ with_uses made.now mark far.old (callee_operands callee.now ++ arg_operands args.now) }
{
    see_callee(made, mark, far, callee);
    see_args(made, mark, far, args);
}

/// What an instruction uses.
fn see_instr(made: &Items<usize>, mark: usize, far: &mut Items<bool>, instr: &Instr)
    ensures { far.new ≡ with_uses made.now mark far.old (instr_operands instr.now) }
{
    match instr {
        Instr::Binary { left, right, .. } => {
            see_operand(made, mark, far, left);
            see_operand(made, mark, far, right);
        }
        Instr::Icmp { left, right, .. } => {
            see_operand(made, mark, far, left);
            see_operand(made, mark, far, right);
        }
        Instr::Select { cond, yes, no, .. } => {
            see_operand(made, mark, far, cond);
            see_operand(made, mark, far, &yes.value);
            see_operand(made, mark, far, &no.value);
        }
        Instr::Cast { arg, .. } => see_operand(made, mark, far, &arg.value),
        Instr::Alloca { .. } => {}
        Instr::Load { address, .. } => see_operand(made, mark, far, address),
        Instr::Store { arg, address, .. } => {
            see_operand(made, mark, far, &arg.value);
            see_operand(made, mark, far, address);
        }
        Instr::Gep { base, indices, .. } => {
            see_operand(made, mark, far, base);
            see_args(made, mark, far, indices.as_slice());
        }
        Instr::Call { callee, args, .. } => see_call(made, mark, far, callee, args.as_slice()),
    }
}

/// What a terminator uses.
fn see_ending(made: &Items<usize>, mark: usize, far: &mut Items<bool>, term: &Terminator)
    ensures { far.new ≡ with_uses made.now mark far.old (ending_operands term.now) }
{
    match term {
        Terminator::Jump(_) => {}
        Terminator::Branch { cond, .. } => see_operand(made, mark, far, cond),
        Terminator::Switch { arg, cases, .. } => {
            see_operand(made, mark, far, &arg.value);
            see_cases(made, mark, far, cases.as_slice());
        }
        Terminator::Ret(None) => {}
        Terminator::Ret(Some(arg)) => see_operand(made, mark, far, &arg.value),
        Terminator::Unreachable => {}
    }
}

/// What the instructions and the terminator of a block use, and what they make.
pub fn see_instrs(
    made: &mut Items<usize>,
    mark: usize,
    far: &mut Items<bool>,
    instrs: &[Instr],
    term: &Terminator,
)
    ensures made { made.new ≡ instrs_made mark made.old instrs.now }
    ensures far { far.new ≡ instrs_far mark made.old far.old instrs.now term.now }
{
    for instr in instrs {
        see_instr(made, mark, far, instr);
        make(made, mark, result_of(instr));
    }
    see_ending(made, mark, far, term);
}
