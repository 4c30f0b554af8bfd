//! How far frames are looked at before another refusal is told.

ghost use Rattle.std.specs.Prelude.{◌≡◌, ◌+◌, IfOk};
ghost use Rattle.frame_acceptance.specs.Order.{count_at as count_at_item, count_with as count_with_it, is_behind as is_behind_layouts, is_of_module as is_rule_of_module, looked_at as looked_at_before, too_large as too_large_at};

use ir_base::{FuncId, Item, Place, Rule};
use ir_parts::next;
use rule_all::Refusal;
use std::alloc::AllocError;

fn is_of_module(rule: Rule) -> bool
    ensures { result ≡ is_rule_of_module rule }
{
    matches!(rule, Rule::L1 | Rule::N1 | Rule::N2 | Rule::N3 | Rule::Y2)
}

fn is_behind(rule: Rule) -> bool
    ensures { result ≡ is_behind_layouts rule }
{
    matches!(rule, Rule::K13)
}

fn count_with(with: bool, func: FuncId) -> Result<usize, AllocError>
    ensures { IfOk result (λ n. n ≡ count_with_it with func) }
{
    if with { next(func) } else { Ok(func) }
}

fn count_at(rule: Rule, item: Item) -> Result<usize, AllocError>
    ensures { IfOk result (λ n. n ≡ count_at_item rule item) }
{
    match item {
        Item::Function(func) => count_with(is_behind(rule), func),
        _ => Ok(0),
    }
}

/// How many functions, the first ones, are looked at for K12 before the refusal is told.
pub fn looked_at(refusal: Refusal) -> Result<usize, AllocError>
    ensures { IfOk result (λ n. n ≡ looked_at_before refusal) }
{
    if is_of_module(refusal.rule) {
        Ok(0)
    } else {
        count_at(refusal.rule, refusal.place.item)
    }
}

/// K12 at a function.
pub fn too_large(func: FuncId) -> Refusal
    ensures { result ≡ too_large_at func }
{
    Refusal {
        rule: Rule::K12,
        place: Place {
            item: Item::Function(func),
            block: None,
            instr: None,
        },
    }
}
