//! The table of worked numbers.

ghost use Rattle.std.specs.Prelude.{◌≡◌};

use ir_base::{BinOp, CastOp, Cause, Flags, Pred, Word};
use run_ints::{Num, binary, cast, icmp, select};

const NONE: Flags = Flags {
    nuw: false,
    nsw: false,
    exact: false,
    disjoint: false,
};

fn byte(bits: u8) -> Num
    ensures { result ≡ Num.Is (record { width = 8; bits = bits }) }
{
    Num::Is(Word {
        width: 8,
        bits: bits as u64,
    })
}

fn short(bits: u16) -> Num
    ensures { result ≡ Num.Is (record { width = 16; bits = bits }) }
{
    Num::Is(Word {
        width: 16,
        bits: bits as u64,
    })
}

#[test]
fn operations(rt: HostRuntime) {
    let nsw = Flags { nsw: true, ..NONE };
    let exact = Flags {
        exact: true,
        ..NONE
    };
    let disjoint = Flags {
        disjoint: true,
        ..NONE
    };
    let poison = Num::Poison;
    assert_eq!(rt; binary(BinOp::Add, nsw, byte(127), byte(1)), Ok(poison));
    assert_eq!(rt; binary(BinOp::Add, NONE, byte(127), byte(1)), Ok(byte(128)));
    assert_eq!(rt;
        binary(BinOp::SDiv, NONE, byte(128), byte(255)),
        Err(Cause::Div)
    );
    assert_eq!(rt; binary(BinOp::URem, NONE, poison, byte(0)), Err(Cause::Div));
    assert_eq!(rt; binary(BinOp::Shl, NONE, byte(1), byte(8)), Ok(poison));
    assert_eq!(rt; binary(BinOp::LShr, exact, byte(3), byte(1)), Ok(poison));
    assert_eq!(rt; binary(BinOp::Or, disjoint, byte(1), byte(3)), Ok(poison));
}

#[test]
fn casts_and_choices(rt: HostRuntime) {
    assert_eq!(rt; cast(CastOp::Zext, true, byte(255), 16), Num::Poison);
    assert_eq!(rt; cast(CastOp::Sext, false, byte(255), 16), short(65535));
    let less = icmp(Pred::Slt, byte(255), byte(1));
    assert_eq!(rt; select(less, byte(7), byte(9)), byte(7));
}
