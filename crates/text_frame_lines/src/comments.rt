//! Reading frame comments.

ghost use Rattle.std.specs.Prelude.{◌≡◌, ◌<◌, ◌^◌, ◌++◌, ◌∷◌, ℕ, Bool, true, List, IfOk, IfSome, MatchOption, Some, decimal};
ghost use Rattle.text_frame_lines.specs.Frames.{IsFrame, Lead, begins_comment, frame_line, number_text};
ghost use Rattle.text_canonical.specs.canonical.Lines.{lacks};
ghost use Rattle.text_frame_lines.specs.declared.frames.FrameLine.{FrameLine};

use crate::frames::{FrameLine, push_frame};
use ir_base::Items;
use std::alloc::{AllocError, Global};
use text_names::entry_of;

/// The bytes before the last space and those behind it.
fn around_last_space(text: &[u8]) -> Option<(&[u8], &[u8])>
    ensures { (front back : List ℕ) → lacks 32 back ≡ true → text.now ≡ front ++ 32 ∷ back
        → MatchOption result ⊥ (λ parts. (parts.0.now ≡ front) × (parts.1.now ≡ back)) }
{
    let mut before = text;
    while let Some((last, front)) = before.split_last() {
        if *last == b' ' {
            return Some((front, text.split_at(before.len()).1));
        }
        before = front;
    }
    None
}

/// The number that is written so, where it is below 2^64; maybe one too that is written otherwise.
fn number_of(bytes: &[u8]) -> Option<u64>
    ensures { (n : ℕ) → n < 2 ^ 64 → bytes.now ≡ decimal n → result ≡ Some n }
{
    match str::from_utf8(bytes) {
        Ok(text) => text.parse().ok(),
        Err(_) => None,
    }
}

/// The number that ends these bytes, and what stands before it and the word before it.
fn number_behind(text: &[u8]) -> Option<(&[u8], u64)>
    ensures { (front word : List ℕ) (n : ℕ) → lacks 32 word ≡ true → n < 2 ^ 64 → text.now ≡ front ++ number_text word n
        → MatchOption result ⊥ (λ parts. (parts.0.now ≡ front) × (parts.1 ≡ n)) }
{
    let (text, digits) = around_last_space(text)?;
    let (front, _) = around_last_space(text)?;
    Some((front, number_of(digits)?))
}

/// The frame that a line is written of, if it is a frame line; maybe one too where it is none.
fn candidate(alloc: Global, line: &[u8]) -> Result<Option<FrameLine>, AllocError>
    ensures frame { IfOk result (λ r. IfSome r (λ f. IsFrame f)) }
    ensures found { (f : FrameLine) → IsFrame f → line.now ≡ frame_line f → IfOk result (λ r. r ≡ Some f) }
{
    let Some((line, index)) = number_behind(line) else {
        return Ok(None);
    };
    let Some((line, align)) = number_behind(line) else {
        return Ok(None);
    };
    let Some((line, size)) = number_behind(line) else {
        return Ok(None);
    };
    let Some(name) = line.strip_prefix(b"; frame @") else {
        return Ok(None);
    };
    let Some(name) = entry_of(alloc, name)? else {
        return Ok(None);
    };
    Ok(Some(FrameLine {
        name,
        size,
        align,
        index,
    }))
}

/// The frame whose line this is, without its line feed.
fn frame_of(alloc: Global, line: &[u8]) -> Result<Option<FrameLine>, AllocError>
    ensures written { IfOk result (λ r. IfSome r (λ f. IsFrame f × (line.now ≡ frame_line f))) }
    ensures found { (f : FrameLine) → IsFrame f → line.now ≡ frame_line f → IfOk result (λ r. r ≡ Some f) }
{
    let Some(frame) = candidate(alloc, line)? else {
        return Ok(None);
    };
    let mut written = Vec::new(alloc);
    push_frame(&frame, &mut written)?;
    if written.as_slice() == line {
        Ok(Some(frame))
    } else {
        Ok(None)
    }
}

/// The first line, and what stands behind its line feed.
fn first_line(text: &[u8]) -> Option<(&[u8], &[u8])>
    ensures parts { IfSome result (λ parts. text.now ≡ parts.0.now ++ 10 ∷ parts.1.now) }
    ensures found { (line rest : List ℕ) → lacks 10 line ≡ true → text.now ≡ line ++ 10 ∷ rest
        → MatchOption result ⊥ (λ parts. (parts.0.now ≡ line) × (parts.1.now ≡ rest)) }
{
    let mut rest = text;
    while let Some((first, behind)) = rest.split_first() {
        if *first == b'\n' {
            return Some((text.split_at(text.len() - rest.len()).0, behind));
        }
        rest = behind;
    }
    None
}

/// Whether a text begins with a frame comment.
fn begins_comment(text: &[u8]) -> bool
    ensures { result ≡ begins_comment text.now }
{
    text.starts_with(b"; frame ")
}

/// The frames that the frame comments before the first other line of a text say, and `None` where one of them is no frame line.
pub fn read_frames(alloc: Global, text: &[u8]) -> Result<Option<Items<FrameLine>>, AllocError>
    ensures read { IfOk result (λ r. IfSome r (λ frames. Lead frames text.now)) }
    ensures found { (frames : List FrameLine) → Lead frames text.now → IfOk result (λ r. r ≡ Some frames) }
{
    let mut frames = Items::new(alloc);
    let mut rest = text;
    while begins_comment(rest) {
        let Some((line, behind)) = first_line(rest) else {
            return Ok(None);
        };
        let Some(frame) = frame_of(alloc, line)? else {
            return Ok(None);
        };
        frames.push(frame)?;
        rest = behind;
    }
    Ok(Some(frames))
}
