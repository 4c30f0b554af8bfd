//! The instance by which a place of a block is judged.

ghost use Rattle.std.specs.Prelude.{◌≡◌, option_map, find};
ghost use Rattle.std.specs.List.{list_any};
ghost use Rattle.run_source.specs.State.{is_finished, last_from};
ghost use Rattle.run_framed.specs.Framed.{field_opens, is_frame_kind, is_open_kind, is_room_at, is_promise_kind, promise_offset as promise_offset_of, covers as covers_byte, is_promise_at as is_promise_of};
ghost use Rattle.run_framed.specs.FramedEffects.{framed_of, fits as fits_sought, gives_room, opens as opens_byte};

use crate::program::FramedProgram;
use frame_layout::{FieldKind, PlacedField};
use run_memory::BlockId;
use run_source::{Instance, Instances, Status};

/// What an instance is looked for by, of those that began in a block.
#[derive(Clone, Copy, Debug, PartialEq, Eq, Drop)]
pub enum Wanted {
    /// That its frame has a byte of the block.
    Byte(u128),
    /// That its promise stands at an offset of the block.
    Promise(u64),
    /// That it began at an offset of the block and is not Finished.
    Unfinished(u64),
    /// That its frame has an offset of the block, at which it did not begin.
    Around(u64),
}

fn is_promise_kind(kind: FieldKind) -> bool
    ensures { result ≡ is_promise_kind kind }
{
    match kind {
        FieldKind::Promise => true,
        _ => false,
    }
}

fn find_promise(fields: &[PlacedField]) -> Option<u64>
    ensures { result ≡ option_map (λ y. y.offset) (find (λ y. is_promise_kind y.kind) fields.now) }
{
    for field in fields {
        if is_promise_kind(field.kind) {
            return Some(field.offset);
        }
    }
    None
}

/// The offset of the promise in an instance's frame.
pub fn promise_offset(program: &FramedProgram, instance: &Instance) -> Option<u64>
    ensures { result ≡ promise_offset_of (framed_of program.now) instance.now }
{
    match program.layout(instance.coroutine) {
        None => None,
        Some(layout) => find_promise(layout.fields.as_slice()),
    }
}

/// Whether the frame of an instance has a byte of a block.
fn covers(program: &FramedProgram, block: BlockId, byte: u128, instance: &Instance) -> bool
    ensures { result ≡ covers_byte (framed_of program.now) block byte instance.now }
{
    let start = u128::from(instance.start);
    let size = u128::from(program.frame_size(instance.coroutine));
    instance.block == block && start <= byte && byte < start + size
}

/// Whether the promise of an instance stands at an offset of a block.
fn is_promise_at(program: &FramedProgram, block: BlockId, at: u64, instance: &Instance) -> bool
    ensures { result ≡ is_promise_of (framed_of program.now) block at instance.now }
{
    if instance.block != block {
        return false;
    }
    match promise_offset(program, instance) {
        None => false,
        Some(offset) => u128::from(at) == u128::from(instance.start) + u128::from(offset),
    }
}

fn is_finished(status: &Status) -> bool
    ensures { result ≡ is_finished status.now }
{
    match status {
        Status::Finished => true,
        _ => false,
    }
}

/// Whether an instance is what is wanted in a block.
fn fits(program: &FramedProgram, block: BlockId, wanted: Wanted, instance: &Instance) -> bool
    ensures { result ≡ fits_sought (framed_of program.now) block wanted instance.now }
{
    match wanted {
        Wanted::Byte(byte) => covers(program, block, byte, instance),
        Wanted::Promise(at) => is_promise_at(program, block, at, instance),
        Wanted::Unfinished(offset) => {
            instance.block == block && instance.start == offset && !is_finished(&instance.status)
        }
        Wanted::Around(offset) => {
            covers(program, block, u128::from(offset), instance)
                && !(instance.block == block && instance.start == offset)
        }
    }
}

/// The number of the last instance that is what is wanted in a block: only those that began in it are looked at.
pub fn last_wanted(
    program: &FramedProgram,
    instances: &Instances,
    block: BlockId,
    wanted: Wanted,
) -> Option<usize>
    ensures { result ≡ last_from (fits_sought (framed_of program.now) block wanted) 0 instances.now }
{
    let mut candidate = instances.last_in(block);
    while let Some(i) = candidate {
        let Some(instance) = instances.get(i) else {
            return None;
        };
        if fits(program, block, wanted, instance) {
            return Some(i);
        }
        candidate = instances.before(i);
    }
    None
}

fn is_open_kind(kind: FieldKind) -> bool
    ensures { result ≡ is_open_kind kind }
{
    match kind {
        FieldKind::Promise | FieldKind::Value | FieldKind::Slot => true,
        FieldKind::Index | FieldKind::Frame => false,
    }
}

/// Whether a field may be touched and has a byte.
fn opens(field: &PlacedField, byte: u128) -> bool
    ensures { result ≡ field_opens byte field.now }
{
    let offset = u128::from(field.offset);
    let size = u128::from(field.size);
    is_open_kind(field.kind) && offset <= byte && byte < offset + size
}

/// Whether one of the fields may be touched and has a byte.
fn any_opens(fields: &[PlacedField], byte: u128) -> bool
    ensures { result ≡ list_any (λ x. field_opens byte x) fields.now }
{
    for field in fields {
        if opens(field, byte) {
            return true;
        }
    }
    false
}

/// Whether a byte of a block may be touched that lies in the frame of an instance.
pub fn is_open_in(program: &FramedProgram, byte: u128, instance: &Instance) -> bool
    ensures { result ≡ opens_byte (framed_of program.now) byte instance.now }
{
    match program.layout(instance.coroutine) {
        None => false,
        Some(layout) => any_opens(
            layout.fields.as_slice(),
            byte.saturating_sub(u128::from(instance.start)),
        ),
    }
}

fn is_frame_kind(kind: FieldKind) -> bool
    ensures { result ≡ is_frame_kind kind }
{
    match kind {
        FieldKind::Frame => true,
        _ => false,
    }
}

/// Whether a field is for a callee's frame of just a size, and starts at an offset of the block in which its own frame
/// starts at `start`.
fn is_room_at(start: u64, offset: u64, size: u64, field: &PlacedField) -> bool
    ensures { result ≡ is_room_at start offset size field.now }
{
    is_frame_kind(field.kind)
        && u128::from(start) + u128::from(field.offset) == u128::from(offset)
        && field.size == size
}

fn any_room_at(start: u64, offset: u64, size: u64, fields: &[PlacedField]) -> bool
    ensures { result ≡ list_any (λ y. is_room_at start offset size y) fields.now }
{
    for field in fields {
        if is_room_at(start, offset, size, field) {
            return true;
        }
    }
    false
}

/// Whether an instance has a field for a callee's frame of just a size at an offset of its block.
pub fn has_room_in(program: &FramedProgram, offset: u64, size: u64, instance: &Instance) -> bool
    ensures { result ≡ gives_room (framed_of program.now) offset size instance.now }
{
    match program.layout(instance.coroutine) {
        None => false,
        Some(layout) => any_room_at(instance.start, offset, size, layout.fields.as_slice()),
    }
}
