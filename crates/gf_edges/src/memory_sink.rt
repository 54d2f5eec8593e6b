// An output in memory, with a limited room and a list of calls that fail.
ghost use Rattle.std.specs.Prelude.{◌≡◌, ◌≤◌, [], IfOk};

use crate::calls::Calls;
use crate::{Failed, Sink};
use std::alloc::{AllocError, Global};
use std::marker::Model;

/// The one error of making a sink: out of memory.
pub type Memory = AllocError;

/// A sink that keeps its bytes in memory. Its calls are numbered from 1, and those whose numbers are listed fail.
#[derive(Drop)]
pub struct MemorySink {
    taken: Vec<u8>,
    room: usize,
    piece: usize,
    calls: Calls,
}

impl Model for MemorySink {
    ghost use Rattle.std.specs.Prelude.{◌≤◌, vec_len, vec_capacity};
    ghost use Rattle.gf_edges.specs.States.{SinkState};

    ghost Value = { SinkState };

    ghost view = { λ s. record {
      bytes = s.taken.items;
      room = s.room;
      piece = s.piece;
      failing = s.calls.failing.items;
      calls = s.calls.made;
      faults = s.calls.faults;
    } };

    ghost invariant = { λ s.
        (vec_len s.taken ≤ s.room) × (s.room ≤ vec_capacity s.taken) × (1 ≤ s.piece) };
}

impl MemorySink {
    /// Makes an empty sink that holds at most `room` bytes and takes at most `piece` of them in one write. The calls
    /// whose numbers, from 1, are in `failing` fail and take nothing. The room is allocated here, and the only error is
    /// out of memory.
    pub fn new(alloc: Global, room: usize, piece: usize, failing: Vec<u64>) -> Result<Self, Memory>
        requires { 1 ≤ piece }
        ensures empty { IfOk result (λ s. s.bytes ≡ []) }
        ensures limits { IfOk result (λ s. (s.room ≡ room) × (s.piece ≡ piece)) }
        ensures failing { IfOk result (λ s. s.failing ≡ failing.items) }
        ensures at_start { IfOk result (λ s. (s.calls ≡ 0) × (s.faults ≡ 0)) }
    {
        Ok(MemorySink {
            taken: Vec::with_capacity(alloc, room)?,
            room,
            piece,
            calls: Calls::new(failing),
        })
    }

    /// Returns all bytes that this sink has taken, in the order in which they came.
    pub fn bytes(&self) -> &[u8]
        ensures { result.now ≡ self.now.bytes }
    {
        &self.taken
    }

    /// Returns how many faults this sink has counted: calls that failed because their numbers were listed, and writes
    /// of some bytes to a full sink. It stays at 2^64 - 1.
    pub fn faults(&self) -> u64
        ensures { result ≡ self.now.faults }
    {
        self.calls.faults
    }
}

impl Sink for MemorySink {
    ghost use Rattle.std.specs.Prelude.{◌≡◌, ◌⊎◌, ◌<◌, ◌^◌, ◌↔◌, length, IfOk, IsErr, Some};
    ghost use Rattle.std.specs.Io.{WritesAtMost};
    ghost use Rattle.std.specs.Io.KnownBytes.{WriteAppends};
    ghost use Rattle.gf_edges.specs.Edges.{HasCause, Rose, raised};
    ghost use Rattle.gf_edges.specs.States.{IsStuck, IsToFail, RisesWhere, taken};

    ghost bytes = { λ s. Some s.bytes };

    ghost faults = { λ s. s.faults };

    /// Takes as many bytes as the piece has, as one write may take and as there is room for, whichever is least, and
    /// returns how many. It fails exactly at a listed call. The count of faults rises there, and if bytes are offered
    /// to a full sink.
    fn write(&mut self, piece: &[u8]) -> Result<usize, Failed>
        ensures bound { WritesAtMost result piece.now }
        ensures bytes { WriteAppends (Some self.old.bytes) (Some self.new.bytes) result piece.now }
        ensures stuck { IfOk result (λ n. n ≡ 0 → 0 < length piece.now
            → Rose self.old.faults self.new.faults) }
        ensures cause { HasCause self.old.faults self.new.faults result }
        ensures count { self.new.faults < 2 ^ 64 }
        ensures fails { IsErr result ↔ IsToFail self.old.failing self.old.calls }
        ensures takes { IfOk result (λ n. n ≡ taken piece.now self.old) }
        ensures faults { RisesWhere
            (IsToFail self.old.failing self.old.calls ⊎ IsStuck self.old piece.now)
            self.old.faults self.new.faults }
        ensures calls { self.new.calls ≡ raised self.old.calls }
        ensures limits { (self.new.room ≡ self.old.room) × (self.new.piece ≡ self.old.piece) }
        ensures failing { self.new.failing ≡ self.old.failing }
    {
        self.calls.count_call()?;
        let count = piece
            .len()
            .min(self.piece)
            .min(self.room - self.taken.len());
        self.taken.extend_from_slice(&piece[..count]).unwrap();
        if count == 0 && !piece.is_empty() {
            self.calls.count_fault();
        }
        Ok(count)
    }
}
