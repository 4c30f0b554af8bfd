//! The kinds of edges.

ghost use Rattle.std.specs.Prelude.{◌≡◌};
ghost use Rattle.flow_blocks.specs.Kinds.{is_value, kind_at, kind_of, kind_of_case, suspended};
ghost use Rattle.std.specs.Option.{option_copied};
ghost use Rattle.run_step.specs.ir_paths.Windows.{is_number as is_number_of};

use ir_base::{BlockId, ValueId};
use ir_model::{Case, Function, Instr, Intrinsic, Operand, Terminator, result_of_call};

/// What an edge means: of a suspend's switch the default edge is the stop edge, those of 0 and 1 are the resume edge and the
/// destroy edge ("Coroutines in LLVM", "llvm.coro.suspend").
#[derive(Clone, Copy, Debug, PartialEq, Eq, Drop)]
pub enum EdgeKind {
    Ordinary,
    Stop,
    Resume,
    Destroy,
}

fn is_number(number: u8, operand: &Operand) -> bool
    ensures { result ≡ is_number_of number operand.now }
{
    match operand {
        Operand::Number(n) => *n == number as i128,
        _ => false,
    }
}

fn suspended(instrs: &[Instr]) -> Option<ValueId>
    ensures { result ≡ suspended instrs.now }
{
    match instrs.last() {
        None => None,
        Some(instr) => result_of_call(Intrinsic::CoroSuspend, instr),
    }
}

fn is_value(value: Option<ValueId>, operand: &Operand) -> bool
    ensures { result ≡ is_value value operand.now }
{
    match (value, operand) {
        (Some(value), Operand::Local(local)) => value == *local,
        _ => false,
    }
}

fn kind_of_case(case: Option<&Case>) -> EdgeKind
    ensures { result ≡ kind_of_case (option_copied case.entry) }
{
    match case {
        None => EdgeKind::Ordinary,
        Some(case) => {
            if is_number(0, &case.arg.value) {
                EdgeKind::Resume
            } else if is_number(1, &case.arg.value) {
                EdgeKind::Destroy
            } else {
                EdgeKind::Ordinary
            }
        }
    }
}

fn kind_at(cases: &[Case], at: usize) -> EdgeKind
    ensures { result ≡ kind_at cases.now at }
{
    if at == 0 {
        EdgeKind::Stop
    } else {
        kind_of_case(cases.get(at - 1))
    }
}

/// The kind of the edge at a position of the block's successors.
pub fn edge_kind(function: &Function, block: BlockId, at: usize) -> EdgeKind
    ensures { result ≡ kind_of function.now block at }
{
    match function.blocks.get(block) {
        None => EdgeKind::Ordinary,
        Some(found) => match &found.term {
            Terminator::Switch {
                arg,
                default: _,
                cases,
            } => {
                if is_value(suspended(found.instrs.as_slice()), &arg.value) {
                    kind_at(cases.as_slice(), at)
                } else {
                    EdgeKind::Ordinary
                }
            }
            _ => EdgeKind::Ordinary,
        },
    }
}
