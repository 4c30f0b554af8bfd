//! For each token the suspends that take it.

ghost use Rattle.std.specs.Prelude.{◌≡◌, [], IfOk, OnOk, Some, replicate, slice_get};
ghost use Rattle.rule_windows.specs.Tokens.{AreTokensOf, token_in, taken_by, with_point, with_token, with_tokens_in, with_tokens_by};

use flow_points::ir_paths_library::Point;
use ir_base::{BlockId, Items, ValueId};
use ir_calls::{is_call_of, operand_of};
use ir_parts::ir_model_library::{Block, Function, Instr, Intrinsic, Operand};
use ir_parts::next;
use std::alloc::{AllocError, Global};
use std::marker::Model;

/// For each local of a function the suspends that take it as their token.
#[derive(Drop)]
pub struct Tokens {
    rows: Vec<Items<Point>>,
}

impl Model for Tokens {
    ghost use Rattle.std.specs.Prelude.{List};
    ghost use Rattle.flow_points.specs.ir_paths.declared.point.Point.{Point as ThePoint};

    ghost Value = { List (List ThePoint) };

    ghost view = { λ t. t.rows.items };
}

fn empty_rows(alloc: Global, count: usize) -> Result<Vec<Items<Point>>, AllocError>
    ensures { IfOk result (λ rows. rows.items ≡ replicate count []) }
{
    let mut rows = Vec::new(alloc);
    for _ in 0..count {
        rows.push(Items::new(alloc))?;
    }
    Ok(rows)
}

fn token_in(instr: &Instr) -> Option<ValueId>
    ensures { result ≡ token_in instr.now }
{
    match instr {
        Instr::Call { args, .. } => match operand_of(args.as_slice(), 0) {
            Some(Operand::Local(token)) => Some(*token),
            _ => None,
        },
        _ => None,
    }
}

fn taken_by(instr: &Instr) -> Option<ValueId>
    ensures { result ≡ taken_by instr.now }
{
    if is_call_of(Intrinsic::CoroSuspend, instr) {
        token_in(instr)
    } else {
        None
    }
}

impl Tokens {
    fn add(&mut self, token: ValueId, point: Point) -> Result<(), AllocError>
        ensures { OnOk result (self.new ≡ with_point self.old token point) }
    {
        if token >= self.rows.len() {
            return Err(AllocError);
        }
        self.rows[token].push(point)?;
        Ok(())
    }

    fn note(&mut self, instr: &Instr, point: Point) -> Result<(), AllocError>
        ensures { OnOk result (self.new ≡ with_token self.old (taken_by instr.now) point) }
    {
        match taken_by(instr) {
            None => Ok(()),
            Some(token) => self.add(token, point),
        }
    }

    fn note_in(&mut self, block: BlockId, instrs: &[Instr]) -> Result<(), AllocError>
        ensures { OnOk result (self.new ≡ with_tokens_in self.old block 0 instrs.now) }
    {
        let mut at = 0;
        for instr in instrs {
            self.note(instr, Point { block, at })?;
            at = next(at)?;
        }
        Ok(())
    }

    fn note_by(&mut self, blocks: &[Block]) -> Result<(), AllocError>
        ensures { OnOk result (self.new ≡ with_tokens_by self.old 0 blocks.now) }
    {
        let mut at = 0;
        for block in blocks {
            self.note_in(at, block.instrs.as_slice())?;
            at = next(at)?;
        }
        Ok(())
    }

    /// The suspends that take a token. A local beyond the names finds no row.
    pub fn suspends_of(&self, token: ValueId) -> Result<&[Point], AllocError>
        ensures { IfOk result (λ points. slice_get self.now token ≡ Some points.now) }
    {
        match self.rows.get(token) {
            None => Err(AllocError),
            Some(row) => Ok(row.as_slice()),
        }
    }
}

/// For each local of a function the suspends that take it as their token.
#[tactic(auto, using(crate::proofs::TokenRows::tokens_are))]
pub fn tokens_of(alloc: Global, function: &Function) -> Result<Tokens, AllocError>
    ensures { IfOk result (λ tokens. AreTokensOf function.now tokens) }
{
    let rows = empty_rows(alloc, function.names.len())?;
    let mut tokens = Tokens { rows };
    tokens.note_by(function.blocks.as_slice())?;
    Ok(tokens)
}
