use ir_base::{Items, Name, Text};
use std::alloc::{AllocError, Global};
use std::test::Fail;
use text_frame_lines::{FrameLine, print_frames, read_frames};

fn frame(alloc: Global) -> Result<Items<FrameLine>, AllocError> {
    let mut all = Items::new(alloc);
    all.push(FrameLine {
        name: Name::Text(Text::from_bytes(alloc, b"f")?),
        size: 24,
        align: 8,
        index: 16,
    })?;
    Ok(all)
}

#[test]
fn frames_are_printed_and_read(rt: HostRuntime) -> Result<(), Fail> {
    let alloc = rt.alloc();
    let frames = frame(alloc)?;
    let line = b"; frame @f size 24 align 8 index 16\n";
    assert_eq!(rt;
        print_frames(alloc, frames.as_slice())?.as_slice(),
        line.as_slice()
    );
    let one_frame: [&[u8]; 2] = [
        b"; frame @f size 24 align 8 index 16\n",
        b"; frame @f size 24 align 8 index 16\n; frames\n; frame @f size x",
    ];
    for text in one_frame {
        assert!(rt; read_frames(alloc, text)? == Some(frame(alloc)?));
    }
    let none: [&[u8]; 3] = [b"", b"; frames", b" ; frame @f size x"];
    for text in none {
        assert!(rt; read_frames(alloc, text)? == Some(Items::new(alloc)));
    }
    let wrong: [&[u8]; 5] = [
        b"; frame @f size x",
        b"; frame @f size 24 align 8 index 16",
        b"; frame @f size 024 align 8 index 16\n",
        b"; frame @\"f\" size 24 align 8 index 16\n",
        b"; frame @f size 18446744073709551616 align 8 index 16\n",
    ];
    for text in wrong {
        assert!(rt; read_frames(alloc, text)?.is_none());
    }
    Ok(())
}
