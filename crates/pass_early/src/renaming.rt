//! Uses of some values put in the place of uses of others.

ghost use Rattle.std.specs.Prelude.{◌≡◌, IfOk, map};
ghost use Rattle.pass_early.specs.Renaming.{is_renamed, renamed_value, renamed, renamed_arg, renamed_callee, renamed_instr, renamed_incoming, renamed_phi, renamed_return, renamed_term};

use ir_base::{Data, Items, Short, ValueId};
use ir_model::{Arg, Callee, Incoming, Instr, Operand, Phi, Terminator};
use std::alloc::{AllocError, Global};

/// Uses of the flagged values become uses of another one.
#[derive(Drop)]
pub struct Renaming {
    /// For each name whether its uses change; a name past the end doesn't.
    pub from: Items<bool>,
    /// The name that takes their place.
    pub to: ValueId,
}

impl Renaming {
    fn is_renamed(&self, id: ValueId) -> bool
        ensures { result ≡ is_renamed self.now id }
    {
        match self.from.get(id) {
            Some(flag) => *flag,
            None => false,
        }
    }

    fn value(&self, id: ValueId) -> ValueId
        ensures { result ≡ renamed_value self.now id }
    {
        if self.is_renamed(id) { self.to } else { id }
    }

    fn operand(&self, alloc: Global, operand: &Operand) -> Result<Operand, AllocError>
        ensures { IfOk result (λ x. x ≡ renamed self.now operand.now) }
    {
        match operand {
            Operand::Local(id) => Ok(Operand::Local(self.value(*id))),
            _ => operand.copied(alloc),
        }
    }

    fn arg(&self, alloc: Global, arg: &Arg) -> Result<Arg, AllocError>
        ensures { IfOk result (λ x. x ≡ renamed_arg self.now arg.now) }
    {
        Ok(Arg {
            ty: arg.ty.copied(alloc)?,
            value: self.operand(alloc, &arg.value)?,
        })
    }

    fn args(&self, alloc: Global, args: &[Arg]) -> Result<Short<Arg>, AllocError>
        ensures { IfOk result (λ x. x ≡ map (renamed_arg self.now) args.now) }
    {
        let mut all = Short::new(alloc);
        for arg in args {
            all.push(self.arg(alloc, arg)?)?;
        }
        Ok(all)
    }

    fn callee(&self, alloc: Global, callee: &Callee) -> Result<Callee, AllocError>
        ensures { IfOk result (λ x. x ≡ renamed_callee self.now callee.now) }
    {
        match callee {
            Callee::Local(id) => Ok(Callee::Local(self.value(*id))),
            _ => callee.copied(alloc),
        }
    }

    /// The instruction with its uses renamed.
    pub fn instr(&self, alloc: Global, instr: &Instr) -> Result<Instr, AllocError>
        ensures { IfOk result (λ x. x ≡ renamed_instr self.now instr.now) }
    {
        match instr {
            Instr::Binary {
                result,
                op,
                flags,
                ty,
                left,
                right,
            } => Ok(Instr::Binary {
                result: *result,
                op: *op,
                flags: *flags,
                ty: ty.copied(alloc)?,
                left: self.operand(alloc, left)?,
                right: self.operand(alloc, right)?,
            }),
            Instr::Icmp {
                result,
                pred,
                ty,
                left,
                right,
            } => Ok(Instr::Icmp {
                result: *result,
                pred: *pred,
                ty: ty.copied(alloc)?,
                left: self.operand(alloc, left)?,
                right: self.operand(alloc, right)?,
            }),
            Instr::Select {
                result,
                cond,
                yes,
                no,
            } => Ok(Instr::Select {
                result: *result,
                cond: self.operand(alloc, cond)?,
                yes: self.arg(alloc, yes)?,
                no: self.arg(alloc, no)?,
            }),
            Instr::Cast {
                result,
                op,
                nneg,
                arg,
                to,
            } => Ok(Instr::Cast {
                result: *result,
                op: *op,
                nneg: *nneg,
                arg: self.arg(alloc, arg)?,
                to: to.copied(alloc)?,
            }),
            Instr::Alloca { .. } => instr.copied(alloc),
            Instr::Load {
                result,
                ty,
                address,
                align,
            } => Ok(Instr::Load {
                result: *result,
                ty: ty.copied(alloc)?,
                address: self.operand(alloc, address)?,
                align: *align,
            }),
            Instr::Store {
                arg,
                address,
                align,
            } => Ok(Instr::Store {
                arg: self.arg(alloc, arg)?,
                address: self.operand(alloc, address)?,
                align: *align,
            }),
            Instr::Gep {
                result,
                inbounds,
                ty,
                base,
                indices,
            } => Ok(Instr::Gep {
                result: *result,
                inbounds: *inbounds,
                ty: ty.copied(alloc)?,
                base: self.operand(alloc, base)?,
                indices: self.args(alloc, indices.as_slice())?,
            }),
            Instr::Call {
                result,
                must_tail,
                ty,
                callee,
                args,
            } => Ok(Instr::Call {
                result: *result,
                must_tail: *must_tail,
                ty: Data::copied(ty, alloc)?,
                callee: self.callee(alloc, callee)?,
                args: self.args(alloc, args.as_slice())?,
            }),
        }
    }

    fn incoming(&self, alloc: Global, incoming: &Incoming) -> Result<Incoming, AllocError>
        ensures { IfOk result (λ x. x ≡ renamed_incoming self.now incoming.now) }
    {
        Ok(Incoming {
            value: self.operand(alloc, &incoming.value)?,
            from: incoming.from,
        })
    }

    fn phi(&self, alloc: Global, phi: &Phi) -> Result<Phi, AllocError>
        ensures { IfOk result (λ x. x ≡ renamed_phi self.now phi.now) }
    {
        let mut all = Items::new(alloc);
        for incoming in phi.incoming.as_slice() {
            all.push(self.incoming(alloc, incoming)?)?;
        }
        Ok(Phi {
            result: phi.result,
            ty: phi.ty.copied(alloc)?,
            incoming: all,
        })
    }

    /// The phis with their operands renamed.
    pub fn phis(&self, alloc: Global, phis: &[Phi]) -> Result<Items<Phi>, AllocError>
        ensures { IfOk result (λ x. x ≡ map (renamed_phi self.now) phis.now) }
    {
        let mut all = Items::new(alloc);
        for phi in phis {
            all.push(self.phi(alloc, phi)?)?;
        }
        Ok(all)
    }

    /// The terminator with its uses renamed.
    pub fn term(&self, alloc: Global, term: &Terminator) -> Result<Terminator, AllocError>
        ensures { IfOk result (λ x. x ≡ renamed_term self.now term.now) }
    {
        match term {
            Terminator::Branch { cond, yes, no } => Ok(Terminator::Branch {
                cond: self.operand(alloc, cond)?,
                yes: *yes,
                no: *no,
            }),
            Terminator::Switch {
                arg,
                default,
                cases,
            } => Ok(Terminator::Switch {
                arg: self.arg(alloc, arg)?,
                default: *default,
                cases: cases.copied(alloc)?,
            }),
            Terminator::Ret(Some(arg)) => Ok(Terminator::Ret(Some(self.arg(alloc, arg)?))),
            Terminator::Ret(None) => Ok(Terminator::Ret(None)),
            Terminator::Jump(label) => Ok(Terminator::Jump(*label)),
            Terminator::Unreachable => Ok(Terminator::Unreachable),
        }
    }
}
