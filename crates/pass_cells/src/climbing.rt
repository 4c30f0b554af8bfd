//! From which local slots the addresses of `getelementptr`s come, and the links between.

ghost use Rattle.std.specs.Prelude.{◌≡◌, IfOk, OnOk, Some as IsTold, replicate, false, map};
ghost use Rattle.pass_cells.specs.Links.{with_base, with_bases_in, with_bases_by, bases_of, further, jumped, roots_after, roots_of, slot_by, slots_of, unmarked, climbed, with_climbs, marks_of};

use crate::tables::{entry, is_flagged, no_entries};
use ir_base::{Data, Items, ValueId};
use ir_model::{Block, Function, Instr, Operand};
use std::alloc::{AllocError, Global};

// ---- bases

fn set_base(bases: &mut Items<Option<ValueId>>, instr: &Instr)
    ensures { bases.new ≡ with_base bases.old instr.now }
{
    if let Instr::Gep {
        result: id,
        inbounds: _,
        ty: _,
        base: Operand::Local(base),
        indices: _,
    } = instr
    {
        bases.set(*id, Some(*base));
    }
}

fn set_bases_in(bases: &mut Items<Option<ValueId>>, instrs: &[Instr])
    ensures { bases.new ≡ with_bases_in bases.old instrs.now }
{
    for instr in instrs {
        set_base(bases, instr);
    }
}

fn set_bases_by(bases: &mut Items<Option<ValueId>>, blocks: &[Block])
    ensures { bases.new ≡ with_bases_by bases.old blocks.now }
{
    for block in blocks {
        set_bases_in(bases, block.instrs.as_slice());
    }
}

/// For each name the base of the `getelementptr` that makes it.
pub fn bases_of(alloc: Global, function: &Function) -> Result<Items<Option<ValueId>>, AllocError>
    ensures { IfOk result (λ x. x ≡ bases_of function.now) }
{
    let mut bases = no_entries(alloc, function.names.len())?;
    set_bases_by(&mut bases, function.blocks.as_slice());
    Ok(bases)
}

// ---- roots

fn further(table: &Items<Option<ValueId>>, to: Option<ValueId>) -> Option<ValueId>
    ensures { result ≡ further table.now to }
{
    match to {
        None => None,
        Some(id) => match entry(table, id) {
            None => Some(id),
            Some(root) => Some(root),
        },
    }
}

/// The table that leads twice as far.
fn jumped(
    alloc: Global,
    table: &Items<Option<ValueId>>,
) -> Result<Items<Option<ValueId>>, AllocError>
    ensures { IfOk result (λ x. x ≡ jumped table.now) }
{
    let mut all = Items::new(alloc);
    for to in table.as_slice() {
        all.push(further(table, *to))?;
    }
    Ok(all)
}

/// The table that leads to the ends of chains. Where leading further changes nothing, nothing further does.
fn roots_of(
    alloc: Global,
    bases: &Items<Option<ValueId>>,
) -> Result<Items<Option<ValueId>>, AllocError>
    ensures { IfOk result (λ x. x ≡ roots_of bases.now) }
{
    let mut table = bases.copied(alloc)?;
    let mut left: u32 = 64;
    while left > 0 {
        let next = jumped(alloc, &table)?;
        if next.is_same(&table) {
            return Ok(table);
        }
        table = next;
        left -= 1;
    }
    Ok(table)
}

fn slot_by(local: &[bool], root: Option<ValueId>) -> Option<ValueId>
    ensures { result ≡ slot_by local.now root }
{
    match root {
        None => None,
        Some(id) => {
            if is_flagged(local, id) {
                Some(id)
            } else {
                None
            }
        }
    }
}

/// For each name the local slot into which it points, where it is the result of a `getelementptr` in a chain from there.
pub fn slots_of(
    alloc: Global,
    local: &[bool],
    bases: &Items<Option<ValueId>>,
) -> Result<Items<Option<ValueId>>, AllocError>
    ensures { IfOk result (λ x. x ≡ slots_of local.now bases.now) }
{
    let mut all = Items::new(alloc);
    let roots = roots_of(alloc, bases)?;
    for root in roots.as_slice() {
        all.push(slot_by(local, *root))?;
    }
    Ok(all)
}

// ---- links

fn unmarked(
    slots: &Items<Option<ValueId>>,
    marks: &Items<bool>,
    to: Option<ValueId>,
) -> Option<ValueId>
    ensures { result ≡ unmarked slots.now marks.now to }
{
    match to {
        None => None,
        Some(id) => match entry(slots, id) {
            None => None,
            Some(_) => {
                if is_flagged(marks.as_slice(), id) {
                    None
                } else {
                    Some(id)
                }
            }
        },
    }
}

/// Marks a link and those above it, up to one that is marked; at most so many.
fn climb(
    bases: &Items<Option<ValueId>>,
    slots: &Items<Option<ValueId>>,
    turns: usize,
    marks: &mut Items<bool>,
    start: Option<ValueId>,
)
    ensures { marks.new ≡ climbed bases.now slots.now turns marks.old start }
{
    let mut at = start;
    for _ in 0..turns {
        let Some(id) = at else {
            return;
        };
        marks.set(id, true);
        at = unmarked(slots, marks, entry(bases, id));
    }
}

fn climb_all(
    bases: &Items<Option<ValueId>>,
    slots: &Items<Option<ValueId>>,
    turns: usize,
    marks: &mut Items<bool>,
    values: &[ValueId],
)
    ensures { marks.new ≡ with_climbs bases.now slots.now turns marks.old values.now }
{
    for value in values {
        let start = unmarked(slots, marks, Some(*value));
        climb(bases, slots, turns, marks, start);
    }
}

/// Which names' distances from a local slot are kept: those of the values, and of the links above them.
pub fn marks_of(
    alloc: Global,
    bases: &Items<Option<ValueId>>,
    slots: &Items<Option<ValueId>>,
    values: &[ValueId],
) -> Result<Items<bool>, AllocError>
    ensures { IfOk result (λ x. x ≡ marks_of bases.now slots.now values.now) }
{
    let turns = bases.len();
    let mut marks = Items::from_vec(Vec::from_elem(alloc, false, turns)?);
    climb_all(bases, slots, turns, &mut marks, values);
    Ok(marks)
}
