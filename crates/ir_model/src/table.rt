//! The one table of the names of intrinsics and allocators.

ghost use Rattle.std.specs.Prelude.{◌≡◌, IsTrue, ◌↔◌, List, ℕ};
ghost use Rattle.ir_model.specs.Names.{same_text};
ghost use Rattle.ir_model.specs.Table.{intrinsic_word, allocator_word, all_intrinsics, all_allocators, intrinsic_in, allocator_in, callee_named};

use crate::operand::{Allocator, Callee, Intrinsic};
use ir_base::Name;

const INTRINSICS: [Intrinsic; 20] = [
    Intrinsic::CoroId,
    Intrinsic::CoroSizeI32,
    Intrinsic::CoroSizeI64,
    Intrinsic::CoroAlignI32,
    Intrinsic::CoroAlignI64,
    Intrinsic::CoroAlloc,
    Intrinsic::CoroBegin,
    Intrinsic::CoroFree,
    Intrinsic::CoroFrame,
    Intrinsic::CoroSave,
    Intrinsic::CoroSuspend,
    Intrinsic::CoroEnd,
    Intrinsic::CoroResume,
    Intrinsic::CoroDestroy,
    Intrinsic::CoroDone,
    Intrinsic::CoroPromise,
    Intrinsic::LifetimeStart,
    Intrinsic::LifetimeEnd,
    Intrinsic::MemcpyI64,
    Intrinsic::MemcpyI32,
];

const ALLOCATORS: [Allocator; 5] = [
    Allocator::Malloc,
    Allocator::Znwm,
    Allocator::Free,
    Allocator::ZdlPv,
    Allocator::ZdlPvm,
];

impl Intrinsic {
    /// The name of the intrinsic, as it is called.
    pub fn word(self) -> &'static [u8]
        ensures { result.now ≡ intrinsic_word self }
    {
        match self {
            Intrinsic::CoroId => b"llvm.coro.id",
            Intrinsic::CoroSizeI32 => b"llvm.coro.size.i32",
            Intrinsic::CoroSizeI64 => b"llvm.coro.size.i64",
            Intrinsic::CoroAlignI32 => b"llvm.coro.align.i32",
            Intrinsic::CoroAlignI64 => b"llvm.coro.align.i64",
            Intrinsic::CoroAlloc => b"llvm.coro.alloc",
            Intrinsic::CoroBegin => b"llvm.coro.begin",
            Intrinsic::CoroFree => b"llvm.coro.free",
            Intrinsic::CoroFrame => b"llvm.coro.frame",
            Intrinsic::CoroSave => b"llvm.coro.save",
            Intrinsic::CoroSuspend => b"llvm.coro.suspend",
            Intrinsic::CoroEnd => b"llvm.coro.end",
            Intrinsic::CoroResume => b"llvm.coro.resume",
            Intrinsic::CoroDestroy => b"llvm.coro.destroy",
            Intrinsic::CoroDone => b"llvm.coro.done",
            Intrinsic::CoroPromise => b"llvm.coro.promise",
            Intrinsic::LifetimeStart => b"llvm.lifetime.start.p0",
            Intrinsic::LifetimeEnd => b"llvm.lifetime.end.p0",
            Intrinsic::MemcpyI64 => b"llvm.memcpy.p0.p0.i64",
            Intrinsic::MemcpyI32 => b"llvm.memcpy.p0.p0.i32",
        }
    }
}

impl Allocator {
    /// The name of the allocator, as it is called.
    pub fn word(self) -> &'static [u8]
        ensures { result.now ≡ allocator_word self }
    {
        match self {
            Allocator::Malloc => b"malloc",
            Allocator::Znwm => b"_Znwm",
            Allocator::Free => b"free",
            Allocator::ZdlPv => b"_ZdlPv",
            Allocator::ZdlPvm => b"_ZdlPvm",
        }
    }
}

fn is_same_text(a: &[u8], b: &[u8]) -> bool
    ensures { result ≡ same_text a.now b.now }
{
    a == b
}

fn intrinsic_in(list: &[Intrinsic], text: &[u8]) -> Option<Intrinsic>
    ensures { result ≡ intrinsic_in list.now text.now }
{
    for i in list {
        if is_same_text(text, i.word()) {
            return Some(*i);
        }
    }
    None
}

fn allocator_in(list: &[Allocator], text: &[u8]) -> Option<Allocator>
    ensures { result ≡ allocator_in list.now text.now }
{
    for a in list {
        if is_same_text(text, a.word()) {
            return Some(*a);
        }
    }
    None
}

fn intrinsic_of(text: &[u8]) -> Option<Intrinsic>
    ensures { result ≡ intrinsic_in all_intrinsics text.now }
{
    intrinsic_in(&INTRINSICS, text)
}

fn allocator_of(text: &[u8]) -> Option<Allocator>
    ensures { result ≡ allocator_in all_allocators text.now }
{
    allocator_in(&ALLOCATORS, text)
}

/// What a name that is called stands for: an intrinsic, an allocator, or a function of the module.
pub fn callee_of(name: Name) -> Callee
    ensures { result ≡ callee_named name }
{
    let told = match &name {
        Name::Number(_) => (None, None),
        Name::Text(text) => (intrinsic_of(text.as_bytes()), allocator_of(text.as_bytes())),
    };
    match told {
        (Some(i), _) => Callee::Intrinsic(i),
        (None, Some(a)) => Callee::Allocator(a),
        (None, None) => Callee::Named(name),
    }
}
