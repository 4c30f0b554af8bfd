//! What stands at the points of a function.

ghost use Rattle.std.specs.Prelude.{◌≡◌, ℕ, List, IfOk, slice_get, Some, None, Option, option_map, true, false, length, MatchOption};
ghost use Rattle.std.specs.Option.{option_copied};
ghost use Rattle.std.specs.List.{list_any};
ghost use Rattle.ir_model.specs.declared.operand.Operand.{Operand as TheOperand};
ghost use Rattle.ir_model.specs.declared.operand.Intrinsic.{Intrinsic as TheIntrinsic};
ghost use Rattle.ir_model.specs.Names.{same_intrinsic};
ghost use Rattle.ir_paths.specs.Paths.{has_point as has_point_in, same_point as are_same_points};
ghost use Rattle.ir_paths.specs.Windows.{instr_at as instr_at_point, operand_at as operand_at_position, call_operand as call_operand_of, is_call_of as is_call_of_intrinsic, call_result as call_result_of, leaves as leaves_window, resume_label as resume_label_of, destroy_label as destroy_label_of, label_in as label_in_cases, is_number as is_number_of, label_of_term as label_of_terminator, label_at as label_at_block};
ghost use Rattle.run_source_tables.specs.Lookups.{is_none_operand};
ghost use Rattle.run_source_tables.specs.Given.{is_true as is_true_operand, is_final as is_final_point};

use ir_base::ValueId;
use ir_model::{Arg, Callee, Case, Function, Instr, Intrinsic, Operand, Terminator};
use ir_paths::{Point, Window};

pub fn same_point(p: Point, q: Point) -> bool
    ensures { result ≡ are_same_points p q }
{
    p.block == q.block && p.at == q.at
}

pub fn has_point(points: &[Point], p: Point) -> bool
    ensures { result ≡ has_point_in points.now p }
{
    for q in points {
        if same_point(p, *q) {
            return true;
        }
    }
    false
}

/// Whether an edge goes out of a window, and not to its suspend.
pub fn leaves(p: Point, q: Point, window: &Window) -> bool
    ensures { result ≡ leaves_window p q window.now }
{
    let inside = window.inside.as_slice();
    has_point(inside, p) && !has_point(inside, q) && !same_point(q, window.suspend)
}

/// The instruction at a point.
pub fn instr_at(function: &Function, p: Point) -> Option<&Instr>
    ensures { option_copied result ≡ instr_at_point function.now p }
{
    match function.blocks.get(p.block) {
        None => None,
        Some(block) => block.instrs.get(p.at),
    }
}

/// Whether an operand is the constant true of type i1, whose literals may also be 1 and -1.
pub fn is_true(operand: &Operand) -> bool
    ensures { result ≡ is_true_operand operand.now }
{
    match operand {
        Operand::True => true,
        Operand::Number(number) => *number == 1 || *number == -1,
        _ => false,
    }
}

/// The operand at a position of a call, if it has so many.
pub fn operand_of(args: &[Arg], i: usize) -> Option<&Operand>
    ensures { MatchOption result (operand_at_position args.now i ≡ TheOperand.None) (λ x. operand_at_position args.now i ≡ x.now) }
{
    match args.get(i) {
        None => None,
        Some(arg) => Some(&arg.value),
    }
}

/// Whether the operand at a position of a call is `true`.
pub fn is_true_at(args: &[Arg], i: usize) -> bool
    ensures { result ≡ is_true_operand (operand_at_position args.now i) }
{
    match operand_of(args, i) {
        None => false,
        Some(operand) => is_true(operand),
    }
}

fn is_none(operand: &Operand) -> bool
    ensures { result ≡ is_none_operand operand.now }
{
    match operand {
        Operand::None => true,
        _ => false,
    }
}

/// Whether the operand at a position of a call is `none`, or there is none.
pub fn is_none_at(args: &[Arg], i: usize) -> bool
    ensures { result ≡ is_none_operand (operand_at_position args.now i) }
{
    match operand_of(args, i) {
        None => true,
        Some(operand) => is_none(operand),
    }
}

/// Whether a point is a final suspend.
pub fn is_final(function: &Function, suspend: Point) -> bool
    ensures { result ≡ is_final_point function.now suspend }
{
    match instr_at(function, suspend) {
        Some(Instr::Call { args, .. }) => is_true_at(args.as_slice(), 1),
        _ => false,
    }
}

fn is_number(n: u8, operand: &Operand) -> bool
    ensures { result ≡ is_number_of n operand.now }
{
    match operand {
        Operand::Number(z) => *z == n as i128,
        _ => false,
    }
}

fn label_in(n: u8, cases: &[Case], default: ValueId) -> ValueId
    ensures { result ≡ label_in_cases n cases.now default }
{
    for case in cases {
        if is_number(n, &case.arg.value) {
            return case.target;
        }
    }
    default
}

fn label_of_term(n: u8, term: &Terminator) -> ValueId
    ensures { result ≡ label_of_terminator n term.now }
{
    match term {
        Terminator::Switch { default, cases, .. } => label_in(n, cases.as_slice(), *default),
        _ => 0,
    }
}

/// The label of a number of the switch at whose block a suspend stands.
fn label_at(function: &Function, n: u8, suspend: Point) -> ValueId
    ensures { result ≡ label_at_block n (slice_get function.now.blocks suspend.block) }
{
    match function.blocks.get(suspend.block) {
        None => 0,
        Some(block) => label_of_term(n, &block.term),
    }
}

/// Where a resume goes on behind a suspend.
pub fn resume_label(function: &Function, suspend: Point) -> ValueId
    ensures { result ≡ resume_label_of function.now suspend }
{
    label_at(function, 0, suspend)
}

/// Where a destroy goes on behind a suspend.
pub fn destroy_label(function: &Function, suspend: Point) -> ValueId
    ensures { result ≡ destroy_label_of function.now suspend }
{
    label_at(function, 1, suspend)
}
