//! The worked rows of a memory.

ghost use Rattle.std.specs.Prelude.{◌≡◌};
ghost use Rattle.run_memory.specs.declared.pointer.Pointer.{Pointer};
ghost use Rattle.run_memory.specs.declared.pointer.Value.{Value};

use ir_base::{Cause, Word};
use run_memory::{Access, Kind, Memory, Offset, Pointer, Value};
use std::alloc::Global;
use std::process::Abort;
use std::test::Fail;

fn at(block: usize, bits: u64) -> Value
    ensures { result ≡ Value.Ptr (Pointer.At block (record { bits = bits })) }
{
    Value::Ptr(Pointer::At(block, Offset { bits }))
}

fn int(width: u32, bits: u64) -> Value
    ensures { result ≡ Value.Int (record { width = width; bits = bits }) }
{
    Value::Int(Word { width, bits })
}

const BYTE: Access = Access::Int(8);

#[test]
fn loads_and_stores(rt: HostRuntime) -> Result<(), Fail> {
    let mut memory = Memory::new(rt.alloc());
    let block = memory.fresh(rt.alloc(), 8, 16, Kind::Allocator)?;
    assert_eq!(rt;
        memory.store(at(block, 0), int(32, 305419896), Access::Int(32), 4),
        Ok(())
    );
    let mut found = [Value::Poison; 8];
    for offset in 0..8 {
        match memory.load(at(block, offset), BYTE, 1) {
            Ok(value) => found[offset as usize] = value,
            Err(cause) => assert!(rt; false, "{cause:?}"),
        }
    }
    let poison = Value::Poison;
    let want = [
        int(8, 120),
        int(8, 86),
        int(8, 52),
        int(8, 18),
        poison,
        poison,
        poison,
        poison,
    ];
    assert_eq!(rt; found, want);
    assert_eq!(rt;
        memory.load(at(block, 2), Access::Int(16), 2),
        Ok(int(16, 4660))
    );
    assert_eq!(rt;
        memory.load(at(block, 0), Access::Int(64), 8),
        Ok(Value::Poison)
    );
    assert_eq!(rt;
        memory.load(at(block, 2), Access::Int(32), 4),
        Err(Cause::Align)
    );
    assert_eq!(rt;
        memory.load(at(block, 8), Access::Int(64), 8),
        Err(Cause::Bounds)
    );
    assert_eq!(rt; memory.kill(at(block, 0), Kind::Allocator), Ok(()));
    assert_eq!(rt; memory.load(at(block, 0), BYTE, 1), Err(Cause::Dead));
    Ok(())
}

#[test]
fn pointers(rt: HostRuntime) -> Result<(), Fail> {
    let mut memory = Memory::new(rt.alloc());
    let a = memory.fresh(rt.alloc(), 8, 16, Kind::Allocator)?;
    let b = memory.fresh(rt.alloc(), 8, 16, Kind::Global)?;
    let c = memory.fresh(rt.alloc(), 8, 16, Kind::Slot)?;
    assert_eq!(rt; memory.store(at(a, 0), at(b, 0), Access::Ptr, 8), Ok(()));
    assert_eq!(rt; memory.copy(at(c, 0), at(a, 0), 8), Ok(()));
    assert_eq!(rt; memory.load(at(c, 0), Access::Ptr, 8), Ok(at(b, 0)));
    assert_eq!(rt; memory.store(at(c, 7), int(8, 1), BYTE, 1), Ok(()));
    assert_eq!(rt; memory.load(at(c, 0), Access::Ptr, 8), Ok(Value::Poison));
    assert_eq!(rt; memory.load(at(c, 7), BYTE, 1), Ok(int(8, 1)));
    assert_eq!(rt; memory.compare(at(a, 8), at(a, 0)), Ok(false));
    memory.seal(b);
    assert_eq!(rt;
        memory.store(at(b, 0), int(8, 1), BYTE, 1),
        Err(Cause::Constant)
    );
    memory.end(c);
    assert_eq!(rt; memory.load(at(c, 0), BYTE, 1), Err(Cause::Dead));
    memory.start(c);
    assert_eq!(rt; memory.load(at(c, 0), BYTE, 1), Ok(Value::Poison));
    assert_eq!(rt; memory.own(at(a, 0), 4, Kind::Allocator), Ok(()));
    assert_eq!(rt; memory.load(at(a, 0), BYTE, 1), Err(Cause::Owned));
    memory.disown(a);
    assert_eq!(rt; memory.load(at(a, 0), Access::Ptr, 8), Ok(at(b, 0)));
    Ok(())
}
