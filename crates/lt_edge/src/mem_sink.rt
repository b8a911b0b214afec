//! A sink in memory.
ghost use Rattle.std.specs.Prelude.{◌≡◌, ◌<◌, ◌-◌, ◌↔◌, ◌⊎◌, ◌++◌, List, [], length, take, Contains, IsErr, IfOk, OnErr, Some};
ghost use Rattle.lt_edge.specs.Bytes.{Takes};
ghost use Rattle.lt_edge.specs.Causes.{HasCause, counted};
ghost use Rattle.lt_edge.specs.Memory.{piece_len};

use crate::piece::next_len;
use crate::{Failed, Sink};
use std::alloc::{AllocError, Global};
use std::marker::Model;

/// A sink that keeps what it takes, up to its room.
///
/// A put fails exactly where its number, from 0, is listed or the sink is full. Otherwise it takes the least of its piece
/// (1 where that is 0), the length of the bytes and the room left.
#[derive(Drop)]
pub struct MemSink {
    store: Vec<u8>,
    len: usize,
    piece: usize,
    failing: Vec<u64>,
    calls: u64,
    faults: u64,
}

impl Model for MemSink {
    ghost use Rattle.std.specs.Prelude.{◌≤◌, take, vec_len};
    ghost use Rattle.lt_edge.specs.Memory.{SinkState};

    ghost Value = { SinkState };

    ghost view = { λ s. record {
      taken = take s.len s.store.items;
      room = vec_len s.store;
      piece = s.piece;
      failing = s.failing.items;
      calls = s.calls;
      faults = s.faults;
    } };

    ghost invariant = { λ s. s.len ≤ vec_len s.store };
}

impl MemSink {
    /// An empty sink that was not called yet. All its memory is taken here. `failing` need not be sorted.
    pub fn new(
        alloc: Global,
        room: usize,
        piece: usize,
        failing: Vec<u64>,
    ) -> Result<MemSink, AllocError>
        ensures { IfOk result (λ s. s ≡ record {
          taken = [];
          room = room;
          piece = piece;
          failing = failing.items;
          calls = 0;
          faults = 0;
        }) }
    {
        let store = vec![in alloc; 0u8; room]?;
        Ok(MemSink {
            store,
            len: 0,
            piece,
            failing,
            calls: 0,
            faults: 0,
        })
    }

    /// The bytes that it has taken, in their order.
    pub fn bytes(&self) -> &[u8]
        ensures { result.now ≡ self.now.taken }
    {
        &self.store[..self.len]
    }
}

impl Sink for MemSink {
    ghost taken = { λ s. Some s.taken };

    ghost faults = { λ s. s.faults };

    fn put(&mut self, bytes: &[u8]) -> Result<usize, Failed>
        requires { 0 < length bytes.now }
        ensures bytes { Takes (Some self.old.taken) (Some self.new.taken) bytes.now result }
        ensures cause { HasCause self.old.faults self.new.faults result }

        ensures fails { IsErr result ↔ (Contains self.old.failing self.old.calls ⊎ (length self.old.taken ≡ self.old.room)) }
        ensures count { IfOk result (λ n.
            n ≡ piece_len self.old.piece (length bytes.now) (self.old.room - length self.old.taken)) }
        ensures put { IfOk result (λ n. self.new ≡ record self.old {
          taken = self.old.taken ++ take n bytes.now;
          calls = counted self.old.calls;
        }) }
        ensures failed { OnErr result (self.new ≡ record self.old {
          calls = counted self.old.calls;
          faults = counted self.old.faults;
        }) }
    {
        let fails = self.failing.contains(&self.calls);
        self.calls = self.calls.saturating_add(1);
        if fails || self.len == self.store.len() {
            self.faults = self.faults.saturating_add(1);
            return Err(Failed);
        }
        let n = next_len(self.piece, bytes.len(), self.store.len() - self.len);
        self.store[self.len..self.len + n].copy_from_slice(&bytes[..n]);
        self.len += n;
        Ok(n)
    }
}
