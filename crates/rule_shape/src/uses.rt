//! How often the operands of a function are a local.

ghost use Rattle.std.specs.Prelude.{◌≡◌, ◌∷◌, ◌++◌, [], ℕ, List, IfOk, OnOk, Some, map, length, replicate, slice_get};
ghost use Rattle.rule_windows.specs.ir_parts.Contents.{arg_operands, callee_operands, instr_operands, ending_operands};
ghost use Rattle.rule_shape.specs.Uses.{operands_of, counted, counted_all, counted_phis, counted_instrs, counted_block, counted_blocks};

use ir_base::{Items, ValueId};
use ir_model::{Arg, Block, Callee, Case, Function, Incoming, Instr, Operand, Phi, Terminator};
use std::alloc::{AllocError, Global};
use std::marker::Model;

/// For each local of a function how many of its operands are that local.
#[derive(Drop)]
pub struct Uses {
    counts: Items<usize>,
}

impl Model for Uses {
    ghost Value = { List ℕ };

    ghost view = { λ u. u.counts };
}

impl Uses {
    /// No use of any of so many locals.
    pub fn new(alloc: Global, names: usize) -> Result<Uses, AllocError>
        ensures { IfOk result (λ u. u ≡ replicate names 0) }
    {
        Ok(Uses {
            counts: Items::from_vec(Vec::from_elem(alloc, 0, names)?),
        })
    }

    /// How many uses of the local were counted. A local beyond the names finds no room.
    pub fn of(&self, local: ValueId) -> Result<usize, AllocError>
        ensures { IfOk result (λ n. slice_get self.now local ≡ Some n) }
    {
        match self.counts.get(local) {
            None => Err(AllocError),
            Some(count) => Ok(*count),
        }
    }

    /// Counts an operand.
    pub fn add(&mut self, operand: &Operand) -> Result<(), AllocError>
        ensures { OnOk result (self.new ≡ counted self.old operand.now) }
    {
        if let Operand::Local(local) = operand {
            match self.of(*local)?.checked_add(1) {
                None => return Err(AllocError),
                Some(count) => self.counts.set(*local, count),
            }
        }
        Ok(())
    }

    fn add_args(&mut self, args: &[Arg]) -> Result<(), AllocError>
        ensures { OnOk result (self.new ≡ counted_all self.old (arg_operands args.now)) }
    {
        for arg in args {
            self.add(&arg.value)?;
        }
        Ok(())
    }

    fn add_two(&mut self, left: &Operand, right: &Operand) -> Result<(), AllocError>
        ensures { OnOk result (self.new ≡ counted_all self.old (left.now ∷ right.now ∷ [])) }
    {
        self.add(left)?;
        self.add(right)?;
        Ok(())
    }

    fn add_callee(&mut self, callee: &Callee) -> Result<(), AllocError>
        ensures { OnOk result (self.new ≡ counted_all self.old (callee_operands callee.now)) }
    {
        match callee {
            Callee::Local(id) => self.add(&Operand::Local(*id)),
            _ => Ok(()),
        }
    }

    #[tactic(auto, using(crate::proofs::Counts::counted_append))]
    fn add_call(&mut self, callee: &Callee, args: &[Arg]) -> Result<(), AllocError>
        ensures { OnOk result (self.new ≡ counted_all self.old (callee_operands callee.now ++ arg_operands args.now)) }
    {
        self.add_callee(callee)?;
        self.add_args(args)?;
        Ok(())
    }

    fn add_instr(&mut self, instr: &Instr) -> Result<(), AllocError>
        ensures { OnOk result (self.new ≡ counted_all self.old (instr_operands instr.now)) }
    {
        match instr {
            Instr::Binary { left, right, .. } => self.add_two(left, right),
            Instr::Icmp { left, right, .. } => self.add_two(left, right),
            Instr::Select { cond, yes, no, .. } => {
                self.add(cond)?;
                self.add_two(&yes.value, &no.value)
            }
            Instr::Cast { arg, .. } => self.add(&arg.value),
            Instr::Alloca { .. } => Ok(()),
            Instr::Load { address, .. } => self.add(address),
            Instr::Store { arg, address, .. } => self.add_two(&arg.value, address),
            Instr::Gep { base, indices, .. } => {
                self.add(base)?;
                self.add_args(indices.as_slice())
            }
            Instr::Call { callee, args, .. } => self.add_call(callee, args.as_slice()),
        }
    }

    fn add_incoming(&mut self, incoming: &[Incoming]) -> Result<(), AllocError>
        ensures { OnOk result (self.new ≡ counted_all self.old (map (λ i. i.value) incoming.now)) }
    {
        for one in incoming {
            self.add(&one.value)?;
        }
        Ok(())
    }

    fn add_phis(&mut self, phis: &[Phi]) -> Result<(), AllocError>
        ensures { OnOk result (self.new ≡ counted_phis self.old phis.now) }
    {
        for phi in phis {
            self.add_incoming(phi.incoming.as_slice())?;
        }
        Ok(())
    }

    fn add_instrs(&mut self, instrs: &[Instr]) -> Result<(), AllocError>
        ensures { OnOk result (self.new ≡ counted_instrs self.old instrs.now) }
    {
        for instr in instrs {
            self.add_instr(instr)?;
        }
        Ok(())
    }

    fn add_cases(&mut self, cases: &[Case]) -> Result<(), AllocError>
        ensures { OnOk result (self.new ≡ counted_all self.old (map (λ k. k.arg.value) cases.now)) }
    {
        for case in cases {
            self.add(&case.arg.value)?;
        }
        Ok(())
    }

    fn add_ending(&mut self, term: &Terminator) -> Result<(), AllocError>
        ensures { OnOk result (self.new ≡ counted_all self.old (ending_operands term.now)) }
    {
        match term {
            Terminator::Jump(_) => Ok(()),
            Terminator::Branch { cond, .. } => self.add(cond),
            Terminator::Switch { arg, cases, .. } => {
                self.add(&arg.value)?;
                self.add_cases(cases.as_slice())
            }
            Terminator::Ret(None) => Ok(()),
            Terminator::Ret(Some(arg)) => self.add(&arg.value),
            Terminator::Unreachable => Ok(()),
        }
    }

    fn add_block(&mut self, block: &Block) -> Result<(), AllocError>
        ensures { OnOk result (self.new ≡ counted_block self.old block.now) }
    {
        self.add_phis(block.phis.as_slice())?;
        self.add_instrs(block.instrs.as_slice())?;
        self.add_ending(&block.term)
    }

    fn add_blocks(&mut self, blocks: &[Block]) -> Result<(), AllocError>
        ensures { OnOk result (self.new ≡ counted_blocks self.old blocks.now) }
    {
        for block in blocks {
            self.add_block(block)?;
        }
        Ok(())
    }
}

/// For each local of a function how many of its operands are that local.
#[tactic(auto, using(crate::proofs::Counts::counted_blocks_is))]
pub fn uses_in(alloc: Global, function: &Function) -> Result<Uses, AllocError>
    ensures { IfOk result (λ u. u ≡ counted_all (replicate (length function.now.names) 0) (operands_of function.now)) }
{
    let mut uses = Uses::new(alloc, function.names.len())?;
    uses.add_blocks(function.blocks.as_slice())?;
    Ok(uses)
}
