//! The one table of what the intrinsics and the allocators take and give.

ghost use Rattle.std.specs.Prelude.{◌≡◌};
ghost use Rattle.rule_types.specs.Wants.{intrinsic_result, intrinsic_params, allocator_result, allocator_params, is_int, is_ptr, is_token, is_basic, is_alignment, is_zero, meets};
ghost use Rattle.ir_model.specs.TypeView.{bits_of};

use ir_model::{Allocator, IntWidth, Intrinsic, IrType, Node, Operand};

/// A type of the table. A size is an i32 or an i64.
#[derive(Clone, Copy, Debug, PartialEq, Eq, Drop)]
pub enum Basic {
    Token,
    Ptr,
    I1,
    I8,
    I32,
    I64,
    Size,
}

/// What an operand has to be: anything, a literal, a literal i1, an alignment, an alignment or 0, false, null, or the
/// token none.
#[derive(Clone, Copy, Debug, PartialEq, Eq, Drop)]
pub enum Demand {
    Any,
    Number,
    Flag,
    Align,
    AlignOrZero,
    False,
    Null,
    None,
}

/// A parameter of the table.
#[derive(Clone, Copy, Debug, PartialEq, Eq, Drop)]
pub struct Wanted {
    pub ty: Basic,
    pub value: Demand,
}

const TOKEN: Wanted = Wanted {
    ty: Basic::Token,
    value: Demand::Any,
};

const POINTER: Wanted = Wanted {
    ty: Basic::Ptr,
    value: Demand::Any,
};

const NULL: Wanted = Wanted {
    ty: Basic::Ptr,
    value: Demand::Null,
};

const FLAG: Wanted = Wanted {
    ty: Basic::I1,
    value: Demand::Flag,
};

const FALSE: Wanted = Wanted {
    ty: Basic::I1,
    value: Demand::False,
};

const NO_TOKEN: Wanted = Wanted {
    ty: Basic::Token,
    value: Demand::None,
};

const ID_ALIGN: Wanted = Wanted {
    ty: Basic::I32,
    value: Demand::AlignOrZero,
};

const PROMISE_ALIGN: Wanted = Wanted {
    ty: Basic::I32,
    value: Demand::Align,
};

const COUNT: Wanted = Wanted {
    ty: Basic::I64,
    value: Demand::Number,
};

const I32: Wanted = Wanted {
    ty: Basic::I32,
    value: Demand::Any,
};

const I64: Wanted = Wanted {
    ty: Basic::I64,
    value: Demand::Any,
};

const SIZE: Wanted = Wanted {
    ty: Basic::Size,
    value: Demand::Any,
};

const NOTHING: [Wanted; 0] = [];

const ID: [Wanted; 4] = [ID_ALIGN, POINTER, NULL, NULL];

const A_TOKEN: [Wanted; 1] = [TOKEN];

const A_POINTER: [Wanted; 1] = [POINTER];

const TOKEN_AND_POINTER: [Wanted; 2] = [TOKEN, POINTER];

const SUSPEND: [Wanted; 2] = [TOKEN, FLAG];

const END: [Wanted; 3] = [POINTER, FALSE, NO_TOKEN];

const PROMISE: [Wanted; 3] = [POINTER, PROMISE_ALIGN, FLAG];

const MARKER: [Wanted; 2] = [COUNT, POINTER];

const MEMCPY_I64: [Wanted; 4] = [POINTER, POINTER, I64, FALSE];

const MEMCPY_I32: [Wanted; 4] = [POINTER, POINTER, I32, FALSE];

const A_SIZE: [Wanted; 1] = [SIZE];

const AN_I64: [Wanted; 1] = [I64];

const POINTER_AND_I64: [Wanted; 2] = [POINTER, I64];

/// The type that an intrinsic gives, none for void.
pub fn intrinsic_result(intrinsic: Intrinsic) -> Option<Basic>
    ensures { result ≡ intrinsic_result intrinsic }
{
    match intrinsic {
        Intrinsic::CoroId => Some(Basic::Token),
        Intrinsic::CoroSizeI32 => Some(Basic::I32),
        Intrinsic::CoroSizeI64 => Some(Basic::I64),
        Intrinsic::CoroAlignI32 => Some(Basic::I32),
        Intrinsic::CoroAlignI64 => Some(Basic::I64),
        Intrinsic::CoroAlloc => Some(Basic::I1),
        Intrinsic::CoroBegin => Some(Basic::Ptr),
        Intrinsic::CoroFree => Some(Basic::Ptr),
        Intrinsic::CoroFrame => Some(Basic::Ptr),
        Intrinsic::CoroSave => Some(Basic::Token),
        Intrinsic::CoroSuspend => Some(Basic::I8),
        Intrinsic::CoroEnd => Some(Basic::I1),
        Intrinsic::CoroResume => None,
        Intrinsic::CoroDestroy => None,
        Intrinsic::CoroDone => Some(Basic::I1),
        Intrinsic::CoroPromise => Some(Basic::Ptr),
        Intrinsic::LifetimeStart => None,
        Intrinsic::LifetimeEnd => None,
        Intrinsic::MemcpyI64 => None,
        Intrinsic::MemcpyI32 => None,
    }
}

/// The parameters of an intrinsic.
pub fn intrinsic_params(intrinsic: Intrinsic) -> &'static [Wanted]
    ensures { result.now ≡ intrinsic_params intrinsic }
{
    match intrinsic {
        Intrinsic::CoroId => &ID,
        Intrinsic::CoroSizeI32 => &NOTHING,
        Intrinsic::CoroSizeI64 => &NOTHING,
        Intrinsic::CoroAlignI32 => &NOTHING,
        Intrinsic::CoroAlignI64 => &NOTHING,
        Intrinsic::CoroAlloc => &A_TOKEN,
        Intrinsic::CoroBegin => &TOKEN_AND_POINTER,
        Intrinsic::CoroFree => &TOKEN_AND_POINTER,
        Intrinsic::CoroFrame => &NOTHING,
        Intrinsic::CoroSave => &A_POINTER,
        Intrinsic::CoroSuspend => &SUSPEND,
        Intrinsic::CoroEnd => &END,
        Intrinsic::CoroResume => &A_POINTER,
        Intrinsic::CoroDestroy => &A_POINTER,
        Intrinsic::CoroDone => &A_POINTER,
        Intrinsic::CoroPromise => &PROMISE,
        Intrinsic::LifetimeStart => &MARKER,
        Intrinsic::LifetimeEnd => &MARKER,
        Intrinsic::MemcpyI64 => &MEMCPY_I64,
        Intrinsic::MemcpyI32 => &MEMCPY_I32,
    }
}

/// The type that an allocator gives, none for void.
pub fn allocator_result(allocator: Allocator) -> Option<Basic>
    ensures { result ≡ allocator_result allocator }
{
    match allocator {
        Allocator::Malloc => Some(Basic::Ptr),
        Allocator::Znwm => Some(Basic::Ptr),
        Allocator::Free => None,
        Allocator::ZdlPv => None,
        Allocator::ZdlPvm => None,
    }
}

/// The parameters of an allocator.
pub fn allocator_params(allocator: Allocator) -> &'static [Wanted]
    ensures { result.now ≡ allocator_params allocator }
{
    match allocator {
        Allocator::Malloc => &A_SIZE,
        Allocator::Znwm => &AN_I64,
        Allocator::Free => &A_POINTER,
        Allocator::ZdlPv => &A_POINTER,
        Allocator::ZdlPvm => &POINTER_AND_I64,
    }
}

fn width_bits(width: IntWidth) -> u32
    ensures { result ≡ bits_of width }
{
    match width {
        IntWidth::I1 => 1,
        IntWidth::I8 => 8,
        IntWidth::I16 => 16,
        IntWidth::I32 => 32,
        IntWidth::I64 => 64,
    }
}

fn is_int(bits: u32, ty: &IrType) -> bool
    ensures { result ≡ is_int bits ty.now }
{
    match ty.node() {
        Node::Int(width) => width_bits(*width) == bits,
        _ => false,
    }
}

fn is_ptr(ty: &IrType) -> bool
    ensures { result ≡ is_ptr ty.now }
{
    matches!(ty.node(), Node::Ptr)
}

fn is_token(ty: &IrType) -> bool
    ensures { result ≡ is_token ty.now }
{
    matches!(ty.node(), Node::Token)
}

impl Basic {
    /// Whether a type is this one.
    pub fn is_type(self, ty: &IrType) -> bool
        ensures { result ≡ is_basic self ty.now }
    {
        match self {
            Basic::Token => is_token(ty),
            Basic::Ptr => is_ptr(ty),
            Basic::I1 => is_int(1, ty),
            Basic::I8 => is_int(8, ty),
            Basic::I32 => is_int(32, ty),
            Basic::I64 => is_int(64, ty),
            Basic::Size => is_int(32, ty) || is_int(64, ty),
        }
    }
}

fn is_alignment(number: i128) -> bool
    ensures { result ≡ is_alignment number }
{
    number == 1 || (number == 2 || (number == 4 || (number == 8 || number == 16)))
}

fn is_zero(number: i128) -> bool
    ensures { result ≡ is_zero number }
{
    number == 0
}

impl Demand {
    /// Whether an operand is as demanded.
    pub fn is_met(self, operand: &Operand) -> bool
        ensures { result ≡ meets self operand.now }
    {
        match self {
            Demand::Any => true,
            Demand::Number => matches!(operand, Operand::Number(_)),
            Demand::Flag => {
                matches!(operand, Operand::Number(_) | Operand::True | Operand::False)
            }
            Demand::Align => match operand {
                Operand::Number(number) => is_alignment(*number),
                _ => false,
            },
            Demand::AlignOrZero => match operand {
                Operand::Number(number) => is_alignment(*number) || is_zero(*number),
                _ => false,
            },
            Demand::False => match operand {
                Operand::Number(number) => is_zero(*number),
                Operand::False => true,
                _ => false,
            },
            Demand::Null => matches!(operand, Operand::Null),
            Demand::None => matches!(operand, Operand::None),
        }
    }
}
