//! For each value the calls of coro.destroy on it.

ghost use Rattle.std.specs.Prelude.{◌≡◌, [], IfOk, OnOk, Some, replicate, slice_get};
ghost use Rattle.elide_sites.specs.Rows.{AreDestroysOf, destroyed_by as destroyed_value, with_destroys_in, with_destroys_by};
ghost use Rattle.elide_sites.specs.Sites.{destroys_of as destroys_in};
ghost use Rattle.ir_paths.specs.Slots.{local_of};
ghost use Rattle.ir_paths.specs.Windows.{call_operand};
ghost use Rattle.rule_windows.specs.Tokens.{with_point, with_token};

use ir_base::{BlockId, Items, ValueId};
use ir_calls::{is_call_of, operand_of};
use ir_model::{Block, Function, Instr, Intrinsic, Operand};
use ir_parts::next;
use ir_paths::Point;
use std::alloc::{AllocError, Global};
use std::marker::Model;

/// For each local of a function the calls of coro.destroy on it.
#[derive(Drop)]
pub struct Destroys {
    rows: Vec<Items<Point>>,
}

impl Model for Destroys {
    ghost use Rattle.std.specs.Prelude.{List};
    ghost use Rattle.ir_paths.specs.declared.point.Point.{Point as ThePoint};

    ghost Value = { List (List ThePoint) };

    ghost view = { λ t. t.rows.items };
}

fn empty_rows(alloc: Global, count: usize) -> Result<Vec<Items<Point>>, AllocError>
    ensures { IfOk result (λ rows. rows.items ≡ replicate count []) }
{
    let mut rows = Vec::new(alloc);
    for _ in 0..count {
        rows.push(Items::new(alloc))?;
    }
    Ok(rows)
}

fn first_local(instr: &Instr) -> Option<ValueId>
    ensures { result ≡ local_of (call_operand instr.now 0) }
{
    match instr {
        Instr::Call { args, .. } => match operand_of(args.as_slice(), 0) {
            Some(Operand::Local(value)) => Some(*value),
            _ => None,
        },
        _ => None,
    }
}

/// The value that an instruction destroys.
fn destroyed_by(instr: &Instr) -> Option<ValueId>
    ensures { result ≡ destroyed_value instr.now }
{
    if is_call_of(Intrinsic::CoroDestroy, instr) {
        first_local(instr)
    } else {
        None
    }
}

impl Destroys {
    fn add(&mut self, value: ValueId, point: Point) -> Result<(), AllocError>
        ensures { OnOk result (self.new ≡ with_point self.old value point) }
    {
        if value >= self.rows.len() {
            return Err(AllocError);
        }
        self.rows[value].push(point)?;
        Ok(())
    }

    fn note(&mut self, instr: &Instr, point: Point) -> Result<(), AllocError>
        ensures { OnOk result (self.new ≡ with_token self.old (destroyed_value instr.now) point) }
    {
        match destroyed_by(instr) {
            None => Ok(()),
            Some(value) => self.add(value, point),
        }
    }

    fn note_in(&mut self, block: BlockId, instrs: &[Instr]) -> Result<(), AllocError>
        ensures { OnOk result (self.new ≡ with_destroys_in self.old block 0 instrs.now) }
    {
        let mut at = 0;
        for instr in instrs {
            self.note(instr, Point { block, at })?;
            at = next(at)?;
        }
        Ok(())
    }

    fn note_by(&mut self, blocks: &[Block]) -> Result<(), AllocError>
        ensures { OnOk result (self.new ≡ with_destroys_by self.old 0 blocks.now) }
    {
        let mut at = 0;
        for block in blocks {
            self.note_in(at, block.instrs.as_slice())?;
            at = next(at)?;
        }
        Ok(())
    }

    fn row(&self, value: ValueId) -> Result<&[Point], AllocError>
        ensures { IfOk result (λ points. slice_get self.now value ≡ Some points.now) }
    {
        match self.rows.get(value) {
            None => Err(AllocError),
            Some(row) => Ok(row.as_slice()),
        }
    }

    /// The calls of coro.destroy on a value. A local beyond the names finds no row.
    #[tactic(auto, using(crate::proofs::DestroyRows::no_destroys, crate::proofs::DestroyRows::row_is))]
    pub fn of(&self, function: &Function, value: Option<ValueId>) -> Result<&[Point], AllocError>
        requires { AreDestroysOf function.now self.now }
        ensures { IfOk result (λ points. points.now ≡ destroys_in function.now value) }
    {
        match value {
            None => Ok(&[]),
            Some(value) => self.row(value),
        }
    }
}

/// For each local of a function the calls of coro.destroy on it.
#[tactic(auto, using(crate::proofs::DestroyRows::destroys_are))]
pub fn destroys_of(alloc: Global, function: &Function) -> Result<Destroys, AllocError>
    ensures { IfOk result (λ all. AreDestroysOf function.now all) }
{
    let rows = empty_rows(alloc, function.names.len())?;
    let mut all = Destroys { rows };
    all.note_by(function.blocks.as_slice())?;
    Ok(all)
}
