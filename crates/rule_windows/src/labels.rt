//! Where a suspend's own edges lead.

ghost use Rattle.std.specs.Prelude.{◌≡◌, slice_get};
ghost use Rattle.flow_points.specs.ir_paths.Windows.{label_in, label_of_term, resume_label as resume_label_of, destroy_label as destroy_label_of, label_at};

use flow_points::ir_paths_library::Point;
use ir_base::{BlockId, ValueId};
use ir_calls::is_number;
use ir_parts::ir_model_library::{Case, Function, Terminator};

fn label_in(number: u64, cases: &[Case], default: ValueId) -> ValueId
    ensures { result ≡ label_in number cases.now default }
{
    for case in cases {
        if is_number(number, &case.arg.value) {
            return case.target;
        }
    }
    default
}

fn label_of_term(number: u64, term: &Terminator) -> ValueId
    ensures { result ≡ label_of_term number term.now }
{
    match term {
        Terminator::Switch {
            arg: _,
            default,
            cases,
        } => label_in(number, cases.as_slice(), *default),
        _ => 0,
    }
}

fn label_at(number: u64, function: &Function, block: BlockId) -> ValueId
    ensures { result ≡ label_at number (slice_get function.now.blocks block) }
{
    match function.blocks.get(block) {
        None => 0,
        Some(block) => label_of_term(number, &block.term),
    }
}

/// The label of a suspend's resume edge.
pub fn resume_label(function: &Function, suspend: Point) -> ValueId
    ensures { result ≡ resume_label_of function.now suspend }
{
    label_at(0, function, suspend.block)
}

/// The label of a suspend's destroy edge.
pub fn destroy_label(function: &Function, suspend: Point) -> ValueId
    ensures { result ≡ destroy_label_of function.now suspend }
{
    label_at(1, function, suspend.block)
}
