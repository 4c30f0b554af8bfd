use ir_base::{Name, Text};
use std::test::Fail;
use text_names::{entry_of, print_name};

#[test]
fn names_are_written_and_found(rt: HostRuntime) -> Result<(), Fail> {
    let texts: [(&[u8], &[u8]); 13] = [
        (b"f", b"f"),
        (b"_ZdlPv", b"_ZdlPv"),
        (b"llvm.coro.id", b"llvm.coro.id"),
        (b"-", b"-"),
        (b"$c.x", b"$c.x"),
        (b"1", b"\"1\""),
        (b"1a", b"\"1a\""),
        (b"a b", b"\"a b\""),
        (b"~", b"\"~\""),
        (b"a\"b", b"\"a\\22b\""),
        (b"a\\b", b"\"a\\\\b\""),
        (b"\x01\x7f", b"\"\\01\\7F\""),
        (b"\xff", b"\"\\FF\""),
    ];
    for (text, spelled) in texts {
        let name = Name::Text(Text::from_bytes(rt.alloc(), text)?);
        let mut out = Vec::from_slice(rt.alloc(), b"%")?;
        print_name(&name, &mut out)?;
        assert_eq!(rt; out.split_off(1)?.as_slice(), spelled);
        assert!(rt; entry_of(rt.alloc(), spelled)? == Some(name));
    }
    for (number, spelled) in [(0, "0"), (10, "10"), (4294967295, "4294967295")] {
        let mut out = Vec::new(rt.alloc());
        print_name(&Name::Number(number), &mut out)?;
        assert_eq!(rt; out.as_slice(), spelled.as_bytes());
        assert!(rt; entry_of(rt.alloc(), spelled.as_bytes())? == Some(Name::Number(number)));
    }
    Ok(())
}

#[test]
fn other_spellings_are_no_names(rt: HostRuntime) -> Result<(), Fail> {
    let spellings: [&[u8]; 17] = [
        b"",
        b"\"\"",
        b"00",
        b"01",
        b"4294967296",
        b"1a",
        b"-1 ",
        b"+1",
        b"@f",
        b"a b",
        b"\"f\"",
        b"\"1",
        b"\"a b\"c",
        b"\"\\20\"",
        b"\"\\5C\"",
        b"\"\\ff\"",
        b"\"\\00\"",
    ];
    for spelling in spellings {
        assert!(rt; entry_of(rt.alloc(), spelling)?.is_none());
    }
    Ok(())
}
