//! The scheduler's board: all transactions as they are played, and those of them that wait.
ghost use Rattle.std.specs.Prelude.{◌≡◌, ◌<◌, [], map, length, false, slice_index_or, is_some, option_map, IfOk};
ghost use Rattle.std.specs.List.{find};
ghost use Rattle.lt_seq.specs.Table.{Setting};
ghost use Rattle.lt_requests.specs.Registered.{next_above};
ghost use Rattle.lt_runner.specs.TurnView.{Seat};
ghost use Rattle.lt_runner.specs.Plays.{next_wish};
ghost use Rattle.lt_runner.specs.Seats.{opening_seat};
ghost use Rattle.lt_runner.specs.Serial.{is_ready};
ghost use Rattle.lt_runner.specs.Board.{IsOn, turn_on};

use crate::turn::Turn;
use lt_requests::{Registry, Wish};
use std::alloc::{AllocError, Global};
use std::collections::BTreeSet;
use std::marker::Model;

/// All transactions of a run, ascending, with those that wait.
#[derive(Debug, Drop)]
pub(crate) struct Board {
    pub(crate) alloc: Global,
    pub(crate) turns: Vec<Turn>,
    /// What those that wait ask for.
    pub(crate) registry: Registry,
    /// Whether a transaction was released since the last sweep began.
    pub(crate) released: bool,
}

impl Model for Board {
    ghost use Rattle.lt_runner.specs.Board.{BoardView as View};

    ghost Value = { View };

    ghost view = { λ b. record { seats = b.turns.items; registry = b.registry; released = b.released } };
}

impl Board {
    /// The transactions with these numbers before their first lines, for a table of so many trees.
    pub(crate) fn opening(
        alloc: Global,
        numbers: &BTreeSet<u64>,
        trees: u32,
    ) -> Result<Board, AllocError>
        ensures { IfOk result (λ board. board
            ≡ record { seats = map (λ txn. opening_seat trees txn []) numbers.now.keys; registry = []; released = false }) }
    {
        let mut turns = Vec::new(alloc);
        for txn in numbers {
            turns.push(Turn::without_lines(alloc, *txn, trees)?)?;
        }
        Ok(Board {
            alloc,
            turns,
            registry: Registry::new(alloc),
            released: false,
        })
    }

    /// Where the transaction with this number is.
    pub(crate) fn place_of(&self, txn: u64) -> usize
        requires on { IsOn txn self.now }
        ensures inside { result < length self.now.seats }
        ensures number { (d : Seat) → (slice_index_or self.now.seats result d).turn.txn ≡ txn }
        ensures found { (setting : Setting) (d : Seat) → (slice_index_or self.now.seats result d).turn ≡ turn_on setting txn self.now }
    {
        let Ok(place) = self.turns.binary_search_by_key(&txn, |turn| turn.number()) else {
            unreachable!();
        };
        place
    }

    /// How many lines are left of the transaction.
    pub(crate) fn lines_left(&self, txn: u64) -> usize
        requires on { IsOn txn self.now }
        ensures { (setting : Setting) → result ≡ length (turn_on setting txn self.now).lines }
    {
        self.turns[self.place_of(txn)].lines_left()
    }

    /// Whether the transaction goes on: it has not ended, and does not wait.
    pub(crate) fn is_ready(&self, txn: u64) -> bool
        requires on { IsOn txn self.now }
        ensures { (setting : Setting) → result ≡ is_ready (turn_on setting txn self.now) }
    {
        self.turns[self.place_of(txn)].is_ready()
    }

    /// Whether the transaction waits at its next line.
    pub(crate) fn is_waiting(&self, txn: u64) -> bool
        requires on { IsOn txn self.now }
        ensures { (setting : Setting) → result ≡ (turn_on setting txn self.now).waits }
    {
        self.turns[self.place_of(txn)].is_waiting()
    }

    /// Whether the transaction's release is next or done.
    pub(crate) fn has_ended(&self, txn: u64) -> bool
        requires on { IsOn txn self.now }
        ensures { (setting : Setting) → result ≡ is_some (turn_on setting txn self.now).outcome }
    {
        self.turns[self.place_of(txn)].has_ended()
    }

    /// Whether the transaction said that it is a big one.
    pub(crate) fn is_big(&self, txn: u64) -> bool
        requires on { IsOn txn self.now }
        ensures { (setting : Setting) → result ≡ (turn_on setting txn self.now).big }
    {
        self.turns[self.place_of(txn)].is_big()
    }

    /// What the transaction's next line waits for: Some exactly where a `lock` line is next.
    pub(crate) fn wish(&self, txn: u64) -> Option<Wish>
        requires on { IsOn txn self.now }
        ensures { (setting : Setting) → result ≡ next_wish (turn_on setting txn self.now).txn (turn_on setting txn self.now).lines }
    {
        self.turns[self.place_of(txn)].wish()
    }

    /// How many transactions there are.
    pub(crate) fn how_many(&self) -> usize
        ensures { result ≡ length self.now.seats }
    {
        self.turns.len()
    }

    /// Whether a transaction was released since the last sweep began.
    pub(crate) fn was_released(&self) -> bool
        ensures { result ≡ self.now.released }
    {
        self.released
    }

    /// A sweep begins.
    pub(crate) fn begin_sweep(&mut self)
        ensures { self.new ≡ record self.old { released = false } }
    {
        self.released = false;
    }

    /// The least transaction above this one that waits.
    pub(crate) fn next_waiting(&self, last: u64) -> Option<u64>
        ensures { result ≡ next_above last self.now.registry }
    {
        self.registry.next_after(last)
    }

    /// The least transaction that goes on.
    pub(crate) fn first_ready(&self) -> Option<u64>
        ensures { result ≡ option_map (λ seat. seat.turn.txn) (find (λ seat. is_ready seat.turn) self.now.seats) }
    {
        self.turns
            .iter()
            .find(|turn| turn.is_ready())
            .map(|turn| turn.number())
    }
}
