//! Operands, and what is called.

ghost use Rattle.std.specs.Prelude.{◌≡◌};

use crate::ir_type::IrType;
use ir_base::{Data, Name, ValueId};
use std::alloc::{AllocError, Global};

/// A value as the text writes it. A literal is from -(2^64 - 1) to 2^64 - 1.
#[derive(Drop)]
pub enum Operand {
    Local(ValueId),
    Global(Name),
    Number(i128),
    True,
    False,
    Null,
    None,
    Poison,
}

/// An operand with its type.
#[derive(Drop)]
pub struct Arg {
    pub ty: IrType,
    pub value: Operand,
}

/// The functions that allocate and deallocate: `malloc`, `_Znwm`, `free`, `_ZdlPv`, `_ZdlPvm`.
#[derive(Clone, Copy, Debug, PartialEq, Eq, Drop)]
pub enum Allocator {
    Malloc,
    Znwm,
    Free,
    ZdlPv,
    ZdlPvm,
}

/// The intrinsics of the table: `llvm.coro.*` ("Coroutines in LLVM"), the lifetime markers and `llvm.memcpy` (LangRef).
#[derive(Clone, Copy, Debug, PartialEq, Eq, Drop)]
pub enum Intrinsic {
    CoroId,
    CoroSizeI32,
    CoroSizeI64,
    CoroAlignI32,
    CoroAlignI64,
    CoroAlloc,
    CoroBegin,
    CoroFree,
    CoroFrame,
    CoroSave,
    CoroSuspend,
    CoroEnd,
    CoroResume,
    CoroDestroy,
    CoroDone,
    CoroPromise,
    LifetimeStart,
    LifetimeEnd,
    MemcpyI64,
    MemcpyI32,
}

/// What is called: by its name a function of the module, one of the allocators, an intrinsic of the table, or the function
/// that a local points to.
#[derive(Drop)]
pub enum Callee {
    Named(Name),
    Allocator(Allocator),
    Intrinsic(Intrinsic),
    Local(ValueId),
}

impl Default for Operand {
    fn default() -> Self {
        Operand::Null
    }
}

impl Default for Arg {
    fn default() -> Self {
        Arg {
            ty: IrType::pointer(),
            value: Operand::Null,
        }
    }
}

impl Data for Operand {
    fn copied(&self, alloc: Global) -> Result<Operand, AllocError> {
        match self {
            Operand::Local(id) => Ok(Operand::Local(*id)),
            Operand::Global(name) => Ok(Operand::Global(name.copied(alloc)?)),
            Operand::Number(n) => Ok(Operand::Number(*n)),
            Operand::True => Ok(Operand::True),
            Operand::False => Ok(Operand::False),
            Operand::Null => Ok(Operand::Null),
            Operand::None => Ok(Operand::None),
            Operand::Poison => Ok(Operand::Poison),
        }
    }

    fn is_same(&self, other: &Operand) -> bool {
        match (self, other) {
            (Operand::Local(a), Operand::Local(b)) => a == b,
            (Operand::Global(a), Operand::Global(b)) => a.is_same(b),
            (Operand::Number(a), Operand::Number(b)) => a == b,
            (Operand::True, Operand::True) => true,
            (Operand::False, Operand::False) => true,
            (Operand::Null, Operand::Null) => true,
            (Operand::None, Operand::None) => true,
            (Operand::Poison, Operand::Poison) => true,
            _ => false,
        }
    }
}

impl Data for Arg {
    fn copied(&self, alloc: Global) -> Result<Arg, AllocError> {
        Ok(Arg {
            ty: self.ty.copied(alloc)?,
            value: self.value.copied(alloc)?,
        })
    }

    fn is_same(&self, other: &Arg) -> bool {
        self.ty.is_same(&other.ty) && self.value.is_same(&other.value)
    }
}

impl Data for Callee {
    fn copied(&self, alloc: Global) -> Result<Callee, AllocError> {
        match self {
            Callee::Named(name) => Ok(Callee::Named(name.copied(alloc)?)),
            Callee::Allocator(a) => Ok(Callee::Allocator(*a)),
            Callee::Intrinsic(i) => Ok(Callee::Intrinsic(*i)),
            Callee::Local(id) => Ok(Callee::Local(*id)),
        }
    }

    fn is_same(&self, other: &Callee) -> bool {
        match (self, other) {
            (Callee::Named(a), Callee::Named(b)) => a.is_same(b),
            (Callee::Allocator(a), Callee::Allocator(b)) => a == b,
            (Callee::Intrinsic(a), Callee::Intrinsic(b)) => a == b,
            (Callee::Local(a), Callee::Local(b)) => a == b,
            _ => false,
        }
    }
}
