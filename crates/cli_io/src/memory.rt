//! Sources and sinks over memory, which fail at chosen calls.

ghost use Rattle.std.specs.Prelude.{◌≡◌, ◌<◌, ◌≤◌, ◌+◌, ◌-◌, ◌^◌, ◌↔◌, ◌⊎◌, ℕ, [], length, min, take, drop, Contains, Some, IfOk, OnErr, IsErr, MatchResult, is_err, vec_capacity};
ghost use Rattle.std.specs.Io.{ReadsAtMost, WritesAtMost};
ghost use Rattle.std.specs.Io.KnownBytes.{Appends, ReadConsumes};
ghost use Rattle.cli_io.specs.Calls.{IsCounted};
ghost use Rattle.cli_io.specs.Faults.{HasCause, Succeeds, risen};
ghost use Rattle.cli_io.specs.Parts.{AppendsPrefix};

use crate::calls::Calls;
use crate::traits::{Failed, Sink, Source};
use std::alloc::{AllocError, Global};

/// A source over bytes in memory. It gives at most a piece a call, and fails at the calls whose numbers are listed.
#[derive(Debug, Drop)]
pub struct ByteSource {
    bytes: Vec<u8>,
    at: usize,
    piece: usize,
    calls: Calls,
    ghost within: { at ≤ length bytes.items },
    ghost some: { 0 < piece },
}

impl ByteSource {
    /// All of these bytes, at most `piece` of them a call, with a fault at each call whose number, from 1, is in `fails`.
    pub fn new(bytes: Vec<u8>, piece: usize, fails: Vec<u64>) -> Self
        requires { 0 < piece }
        ensures left { ⟦<ByteSource as Source>⟧.left result ≡ Some bytes.items }
        ensures faults { ⟦<ByteSource as Source>⟧.faults result ≡ 0 }
        ensures piece { result.piece ≡ piece }
        ensures calls { (result.calls.fails ≡ fails) × (result.calls.made ≡ 0) }
        ensures sure { fails.items ≡ [] → ⟦<ByteSource as Source>⟧.IsSure result }
    {
        ByteSource {
            bytes,
            at: 0,
            piece,
            calls: Calls::new(fails),
        }
    }
}

impl Source for ByteSource {
    ghost left = { λ s. Some (drop s.at s.bytes.items) };

    ghost faults = { λ s. s.calls.faults };

    ghost IsSure = { λ s. s.calls.fails.items ≡ [] };

    fn read_into(&mut self, buf: &mut [u8]) -> Result<usize, Failed>
        ensures bound { ReadsAtMost result buf.new }
        ensures bytes { ReadConsumes (Some (drop self.old.at self.old.bytes.items)) (Some (drop self.new.at self.new.bytes.items)) result buf.new }
        ensures cause { HasCause self.old.calls.faults self.new.calls.faults result }
        ensures sure { self.old.calls.fails.items ≡ []
            → Succeeds self.old.calls.faults self.new.calls.faults result (λ _. self.new.calls.fails.items ≡ []) }

        // Which calls fail, and how many bytes the others give.
        ensures listed { IsErr result ↔ Contains self.old.calls.fails.items (risen self.old.calls.made) }
        ensures count { IfOk result (λ n. n ≡ min (min self.old.piece (length self.old.bytes.items - self.old.at)) (length buf.old)) }
        ensures counted { IsCounted self.old.calls self.new.calls (is_err result) }
        ensures same { (self.new.piece ≡ self.old.piece) × (self.new.bytes ≡ self.old.bytes) }
    {
        if self.calls.next_fails() {
            return Err(self.calls.fail());
        }
        let (_, left) = self.bytes.split_at(self.at);
        let count = self.piece.min(left.len()).min(buf.len());
        let (front, _) = left.split_at(count);
        let (room, _) = buf.split_at_mut(count);
        room.copy_from_slice(front);
        self.at += count;
        Ok(count)
    }
}

/// A sink over memory of a fixed room, reserved when it is made. It takes at most a piece a call and at most the room that
/// is left, and fails where none is left and at the calls whose numbers are listed.
#[derive(Debug, Drop)]
pub struct ByteSink {
    bytes: Vec<u8>,
    room: usize,
    piece: usize,
    calls: Calls,
    ghost within: { length bytes.items ≤ room },
    ghost reserved: { room ≤ vec_capacity bytes },
    ghost some: { 0 < piece },
}

impl ByteSink {
    /// The room of `new`, in bytes.
    pub const ROOM: usize = 16777216;

    /// An empty sink with a room of 2^24 bytes.
    pub fn new(alloc: Global, piece: usize, fails: Vec<u64>) -> Result<Self, AllocError>
        requires { 0 < piece }
        ensures held { IfOk result (λ s. ⟦<ByteSink as Sink>⟧.held s ≡ Some []) }
        ensures faults { IfOk result (λ s. ⟦<ByteSink as Sink>⟧.faults s ≡ 0) }
        ensures room { IfOk result (λ s. s.room ≡ 2 ^ 24) }
        ensures piece { IfOk result (λ s. s.piece ≡ piece) }
        ensures calls { IfOk result (λ s. (s.calls.fails ≡ fails) × (s.calls.made ≡ 0)) }
        ensures sure { IfOk result (λ s. fails.items ≡ [] → ⟦<ByteSink as Sink>⟧.IsSureFor s (2 ^ 24)) }
    {
        ByteSink::with_room(alloc, ByteSink::ROOM, piece, fails)
    }

    /// An empty sink with a room of so many bytes. It takes at most `piece` bytes a call, with a fault at each call whose
    /// number, from 1, is in `fails`.
    pub fn with_room(
        alloc: Global,
        room: usize,
        piece: usize,
        fails: Vec<u64>,
    ) -> Result<Self, AllocError>
        requires { 0 < piece }
        ensures held { IfOk result (λ s. ⟦<ByteSink as Sink>⟧.held s ≡ Some []) }
        ensures faults { IfOk result (λ s. ⟦<ByteSink as Sink>⟧.faults s ≡ 0) }
        ensures room { IfOk result (λ s. s.room ≡ room) }
        ensures piece { IfOk result (λ s. s.piece ≡ piece) }
        ensures calls { IfOk result (λ s. (s.calls.fails ≡ fails) × (s.calls.made ≡ 0)) }
        ensures sure { IfOk result (λ s. fails.items ≡ [] → ⟦<ByteSink as Sink>⟧.IsSureFor s room) }
    {
        Ok(ByteSink {
            bytes: Vec::with_capacity(alloc, room)?,
            room,
            piece,
            calls: Calls::new(fails),
        })
    }

    /// The bytes that are held.
    pub fn as_bytes(&self) -> &[u8]
        ensures { ⟦<ByteSink as Sink>⟧.held self.now ≡ Some result.now }
    {
        self.bytes.as_slice()
    }

    /// The bytes that were held.
    pub fn into_bytes(self) -> Vec<u8>
        ensures { ⟦<ByteSink as Sink>⟧.held self ≡ Some result.items }
    {
        self.bytes
    }
}

impl Sink for ByteSink {
    ghost held = { λ s. Some s.bytes.items };

    ghost faults = { λ s. s.calls.faults };

    ghost IsSureFor = { λ s n. (s.calls.fails.items ≡ []) × (length s.bytes.items + n ≤ s.room) };

    fn write(&mut self, bytes: &[u8]) -> Result<usize, Failed>
        ensures bound { WritesAtMost result bytes.now }
        ensures some { 0 < length bytes.now → IfOk result (λ n. 0 < n) }
        ensures appended { MatchResult result
            (λ n. Appends (Some self.old.bytes.items) (Some self.new.bytes.items) (take n bytes.now))
            (λ _. AppendsPrefix (Some self.old.bytes.items) (Some self.new.bytes.items) bytes.now) }
        ensures cause { HasCause self.old.calls.faults self.new.calls.faults result }
        ensures sure { (room : ℕ) → (self.old.calls.fails.items ≡ []) × (length self.old.bytes.items + room ≤ self.old.room) → length bytes.now ≤ room
            → Succeeds self.old.calls.faults self.new.calls.faults result
            (λ n. (self.new.calls.fails.items ≡ []) × (length self.new.bytes.items + (room - n) ≤ self.new.room)) }

        // Which calls fail, and how many bytes the others take.
        ensures listed { IsErr result ↔ (Contains self.old.calls.fails.items (risen self.old.calls.made)
            ⊎ ((self.old.room ≡ length self.old.bytes.items) × (0 < length bytes.now))) }
        ensures count { IfOk result (λ n. n ≡ min (min self.old.piece (length bytes.now)) (self.old.room - length self.old.bytes.items)) }
        ensures failed { OnErr result (self.new.bytes ≡ self.old.bytes) }
        ensures counted { IsCounted self.old.calls self.new.calls (is_err result) }
        ensures same { (self.new.piece ≡ self.old.piece) × (self.new.room ≡ self.old.room) }
    {
        let room = self.room - self.bytes.len();
        let is_full = room == 0 && !bytes.is_empty();
        if self.calls.next_fails() || is_full {
            return Err(self.calls.fail());
        }
        let count = self.piece.min(bytes.len()).min(room);
        let (front, _) = bytes.split_at(count);
        self.bytes.extend_from_slice(front).unwrap();
        Ok(count)
    }
}
