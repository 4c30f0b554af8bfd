//! Instructions, phis and terminators. A local is named by its position in its function's table of names.

ghost use Rattle.std.specs.Prelude.{◌≡◌, IsTrue, ◌↔◌};

use crate::ir_type::IrType;
use crate::operand::{Arg, Callee, Operand};
use ir_base::{BinOp, CastOp, Data, Flags, Items, Pred, Short, ValueId};
use std::alloc::{AllocError, Global};

/// An instruction that is no phi and no terminator (LangRef, "Instruction Reference").
#[derive(Drop)]
pub enum Instr {
    Binary {
        result: ValueId,
        op: BinOp,
        flags: Flags,
        ty: IrType,
        left: Operand,
        right: Operand,
    },
    Icmp {
        result: ValueId,
        pred: Pred,
        ty: IrType,
        left: Operand,
        right: Operand,
    },
    Select {
        result: ValueId,
        cond: Operand,
        yes: Arg,
        no: Arg,
    },
    Cast {
        result: ValueId,
        op: CastOp,
        nneg: bool,
        arg: Arg,
        to: IrType,
    },
    Alloca {
        result: ValueId,
        ty: IrType,
        align: u64,
    },
    Load {
        result: ValueId,
        ty: IrType,
        address: Operand,
        align: u64,
    },
    Store {
        arg: Arg,
        address: Operand,
        align: u64,
    },
    Gep {
        result: ValueId,
        inbounds: bool,
        ty: IrType,
        base: Operand,
        indices: Short<Arg>,
    },
    Call {
        result: Option<ValueId>,
        must_tail: bool,
        ty: Option<IrType>,
        callee: Callee,
        args: Short<Arg>,
    },
}

/// The operand that a phi takes where its block is entered from a label.
#[derive(Drop)]
pub struct Incoming {
    pub value: Operand,
    pub from: ValueId,
}

/// A phi (LangRef, "phi").
#[derive(Drop)]
pub struct Phi {
    pub result: ValueId,
    pub ty: IrType,
    pub incoming: Items<Incoming>,
}

/// A value of a switch with its label.
#[derive(Drop)]
pub struct Case {
    pub arg: Arg,
    pub target: ValueId,
}

/// What ends a block (LangRef, "Terminator Instructions").
#[derive(Drop)]
pub enum Terminator {
    Jump(ValueId),
    Branch {
        cond: Operand,
        yes: ValueId,
        no: ValueId,
    },
    Switch {
        arg: Arg,
        default: ValueId,
        cases: Items<Case>,
    },
    Ret(Option<Arg>),
    Unreachable,
}

/// Whether two pairs of operands and their types are the same data.
fn are_same_operands(
    ty: &IrType,
    left: &Operand,
    right: &Operand,
    ty2: &IrType,
    left2: &Operand,
    right2: &Operand,
) -> bool
    ensures { IsTrue result ↔ ((ty.now ≡ ty2.now) × (left.now ≡ left2.now) × (right.now ≡ right2.now)) }
{
    ty.is_same(ty2) && left.is_same(left2) && right.is_same(right2)
}

/// Whether two operations and their flags are the same.
fn is_same_operation(op: BinOp, flags: Flags, op2: BinOp, flags2: Flags) -> bool
    ensures { IsTrue result ↔ ((op ≡ op2) × (flags ≡ flags2)) }
{
    op == op2 && flags == flags2
}

impl Data for Instr {
    fn copied(&self, alloc: Global) -> Result<Instr, AllocError> {
        match self {
            Instr::Binary {
                result,
                op,
                flags,
                ty,
                left,
                right,
            } => Ok(Instr::Binary {
                result: *result,
                op: *op,
                flags: *flags,
                ty: ty.copied(alloc)?,
                left: left.copied(alloc)?,
                right: right.copied(alloc)?,
            }),
            Instr::Icmp {
                result,
                pred,
                ty,
                left,
                right,
            } => Ok(Instr::Icmp {
                result: *result,
                pred: *pred,
                ty: ty.copied(alloc)?,
                left: left.copied(alloc)?,
                right: right.copied(alloc)?,
            }),
            Instr::Select {
                result,
                cond,
                yes,
                no,
            } => Ok(Instr::Select {
                result: *result,
                cond: cond.copied(alloc)?,
                yes: yes.copied(alloc)?,
                no: no.copied(alloc)?,
            }),
            Instr::Cast {
                result,
                op,
                nneg,
                arg,
                to,
            } => Ok(Instr::Cast {
                result: *result,
                op: *op,
                nneg: *nneg,
                arg: arg.copied(alloc)?,
                to: to.copied(alloc)?,
            }),
            Instr::Alloca { result, ty, align } => Ok(Instr::Alloca {
                result: *result,
                ty: ty.copied(alloc)?,
                align: *align,
            }),
            Instr::Load {
                result,
                ty,
                address,
                align,
            } => Ok(Instr::Load {
                result: *result,
                ty: ty.copied(alloc)?,
                address: address.copied(alloc)?,
                align: *align,
            }),
            Instr::Store {
                arg,
                address,
                align,
            } => Ok(Instr::Store {
                arg: arg.copied(alloc)?,
                address: address.copied(alloc)?,
                align: *align,
            }),
            Instr::Gep {
                result,
                inbounds,
                ty,
                base,
                indices,
            } => Ok(Instr::Gep {
                result: *result,
                inbounds: *inbounds,
                ty: ty.copied(alloc)?,
                base: base.copied(alloc)?,
                indices: indices.copied(alloc)?,
            }),
            Instr::Call {
                result,
                must_tail,
                ty,
                callee,
                args,
            } => Ok(Instr::Call {
                result: *result,
                must_tail: *must_tail,
                ty: ty.copied(alloc)?,
                callee: callee.copied(alloc)?,
                args: args.copied(alloc)?,
            }),
        }
    }

    fn is_same(&self, other: &Instr) -> bool {
        match (self, other) {
            (
                Instr::Binary {
                    result,
                    op,
                    flags,
                    ty,
                    left,
                    right,
                },
                Instr::Binary {
                    result: result2,
                    op: op2,
                    flags: flags2,
                    ty: ty2,
                    left: left2,
                    right: right2,
                },
            ) => {
                result == result2
                    && is_same_operation(*op, *flags, *op2, *flags2)
                    && are_same_operands(ty, left, right, ty2, left2, right2)
            }
            (
                Instr::Icmp {
                    result,
                    pred,
                    ty,
                    left,
                    right,
                },
                Instr::Icmp {
                    result: result2,
                    pred: pred2,
                    ty: ty2,
                    left: left2,
                    right: right2,
                },
            ) => {
                result == result2
                    && pred == pred2
                    && are_same_operands(ty, left, right, ty2, left2, right2)
            }
            (
                Instr::Select {
                    result,
                    cond,
                    yes,
                    no,
                },
                Instr::Select {
                    result: result2,
                    cond: cond2,
                    yes: yes2,
                    no: no2,
                },
            ) => {
                result == result2 && cond.is_same(cond2) && yes.is_same(yes2) && no.is_same(no2)
            }
            (
                Instr::Cast {
                    result,
                    op,
                    nneg,
                    arg,
                    to,
                },
                Instr::Cast {
                    result: result2,
                    op: op2,
                    nneg: nneg2,
                    arg: arg2,
                    to: to2,
                },
            ) => {
                result == result2
                    && op == op2
                    && nneg == nneg2
                    && arg.is_same(arg2)
                    && to.is_same(to2)
            }
            (
                Instr::Alloca { result, ty, align },
                Instr::Alloca {
                    result: result2,
                    ty: ty2,
                    align: align2,
                },
            ) => result == result2 && ty.is_same(ty2) && align == align2,
            (
                Instr::Load {
                    result,
                    ty,
                    address,
                    align,
                },
                Instr::Load {
                    result: result2,
                    ty: ty2,
                    address: address2,
                    align: align2,
                },
            ) => {
                result == result2 && ty.is_same(ty2) && address.is_same(address2) && align == align2
            }
            (
                Instr::Store {
                    arg,
                    address,
                    align,
                },
                Instr::Store {
                    arg: arg2,
                    address: address2,
                    align: align2,
                },
            ) => arg.is_same(arg2) && address.is_same(address2) && align == align2,
            (
                Instr::Gep {
                    result,
                    inbounds,
                    ty,
                    base,
                    indices,
                },
                Instr::Gep {
                    result: result2,
                    inbounds: inbounds2,
                    ty: ty2,
                    base: base2,
                    indices: indices2,
                },
            ) => {
                result == result2
                    && inbounds == inbounds2
                    && ty.is_same(ty2)
                    && base.is_same(base2)
                    && indices.is_same(indices2)
            }
            (
                Instr::Call {
                    result,
                    must_tail,
                    ty,
                    callee,
                    args,
                },
                Instr::Call {
                    result: result2,
                    must_tail: must_tail2,
                    ty: ty2,
                    callee: callee2,
                    args: args2,
                },
            ) => {
                result == result2
                    && must_tail == must_tail2
                    && ty.is_same(ty2)
                    && callee.is_same(callee2)
                    && args.is_same(args2)
            }
            _ => false,
        }
    }
}

impl Data for Incoming {
    fn copied(&self, alloc: Global) -> Result<Incoming, AllocError> {
        Ok(Incoming {
            value: self.value.copied(alloc)?,
            from: self.from,
        })
    }

    fn is_same(&self, other: &Incoming) -> bool {
        self.value.is_same(&other.value) && self.from == other.from
    }
}

impl Data for Phi {
    fn copied(&self, alloc: Global) -> Result<Phi, AllocError> {
        Ok(Phi {
            result: self.result,
            ty: self.ty.copied(alloc)?,
            incoming: self.incoming.copied(alloc)?,
        })
    }

    fn is_same(&self, other: &Phi) -> bool {
        self.result == other.result
            && self.ty.is_same(&other.ty)
            && self.incoming.is_same(&other.incoming)
    }
}

impl Data for Case {
    fn copied(&self, alloc: Global) -> Result<Case, AllocError> {
        Ok(Case {
            arg: self.arg.copied(alloc)?,
            target: self.target,
        })
    }

    fn is_same(&self, other: &Case) -> bool {
        self.arg.is_same(&other.arg) && self.target == other.target
    }
}

impl Data for Terminator {
    fn copied(&self, alloc: Global) -> Result<Terminator, AllocError> {
        match self {
            Terminator::Jump(label) => Ok(Terminator::Jump(*label)),
            Terminator::Branch { cond, yes, no } => Ok(Terminator::Branch {
                cond: cond.copied(alloc)?,
                yes: *yes,
                no: *no,
            }),
            Terminator::Switch {
                arg,
                default,
                cases,
            } => Ok(Terminator::Switch {
                arg: arg.copied(alloc)?,
                default: *default,
                cases: cases.copied(alloc)?,
            }),
            Terminator::Ret(value) => Ok(Terminator::Ret(value.copied(alloc)?)),
            Terminator::Unreachable => Ok(Terminator::Unreachable),
        }
    }

    fn is_same(&self, other: &Terminator) -> bool {
        match (self, other) {
            (Terminator::Jump(a), Terminator::Jump(b)) => a == b,
            (
                Terminator::Branch { cond, yes, no },
                Terminator::Branch {
                    cond: cond2,
                    yes: yes2,
                    no: no2,
                },
            ) => cond.is_same(cond2) && yes == yes2 && no == no2,
            (
                Terminator::Switch {
                    arg,
                    default,
                    cases,
                },
                Terminator::Switch {
                    arg: arg2,
                    default: default2,
                    cases: cases2,
                },
            ) => arg.is_same(arg2) && default == default2 && cases.is_same(cases2),
            (Terminator::Ret(a), Terminator::Ret(b)) => a.is_same(b),
            (Terminator::Unreachable, Terminator::Unreachable) => true,
            _ => false,
        }
    }
}
