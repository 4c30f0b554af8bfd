//! Frame lines: what a coroutine's frame is, as comments before the text of a lowered module.

ghost use Rattle.std.specs.Prelude.{◌≡◌, ℕ, List, ◌++◌, OnOk, IfOk};
ghost use Rattle.text_symbols.specs.Listing.{symbols_of};
ghost use Rattle.text_frame_lines.specs.Frames.{AreFrames, frame_line, frames_text, number_text};

use ir_base::Name;
use std::alloc::{AllocError, Global};
use text_operands::{push_global, push_number};

/// The frame of a coroutine, which is written `; frame @f size 24 align 8 index 16`.
#[derive(Debug, Drop, PartialEq, Eq)]
pub struct FrameLine {
    /// The coroutine's name.
    pub name: Name,
    /// The frame's size in bytes.
    pub size: u64,
    /// The frame's alignment in bytes.
    pub align: u64,
    /// Where in the frame the index of the suspend stands, in bytes.
    pub index: u64,
}

/// Writes a word and a number, a space before each.
fn push_numbered(word: &[u8], number: u64, out: &mut Vec<u8>) -> Result<(), AllocError>
    ensures { OnOk result (out.new.items ≡ out.old.items ++ number_text word.now number) }
{
    out.push(b' ')?;
    out.extend_from_slice(word)?;
    out.push(b' ')?;
    push_number(number, out)
}

/// Writes a frame line without its line feed.
pub fn push_frame(frame: &FrameLine, out: &mut Vec<u8>) -> Result<(), AllocError>
    ensures { OnOk result (out.new.items ≡ out.old.items ++ frame_line frame.now) }
{
    out.extend_from_slice(b"; frame ")?;
    push_global(&frame.name, out)?;
    push_numbered(b"size", frame.size, out)?;
    push_numbered(b"align", frame.align, out)?;
    push_numbered(b"index", frame.index, out)
}

/// Writes frame lines, each ended by a line feed.
fn push_frames(frames: &[FrameLine], out: &mut Vec<u8>) -> Result<(), AllocError>
    ensures { OnOk result (out.new.items ≡ out.old.items ++ frames_text frames.now) }
{
    for frame in frames {
        push_frame(frame, out)?;
        out.push(b'\n')?;
    }
    Ok(())
}

/// The frame lines of these frames, in order, each ended by a line feed. They are comments: before any text they say nothing.
#[tactic(auto, using(crate::proofs::Said::frames_said))]
pub fn print_frames(alloc: Global, frames: &[FrameLine]) -> Result<Vec<u8>, AllocError>
    ensures text { IfOk result (λ text. text.items ≡ frames_text frames.now) }
    ensures comments { AreFrames frames.now → (text : List ℕ) → IfOk result (λ lines. symbols_of (lines.items ++ text) ≡ symbols_of text) }
{
    let mut out = Vec::new(alloc);
    push_frames(frames, &mut out)?;
    Ok(out)
}
