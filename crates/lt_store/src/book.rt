//! The map with the transactions on it.
ghost use Rattle.std.specs.Prelude.{◌≡◌, [], ◌∷◌, ◌++◌, ◌<◌, length, slice_set, slice_index_or, IfOk, OnOk};
ghost use Rattle.std.specs.List.{remove};
ghost use Rattle.lt_ranges.specs.Numbers.{is_in, with_number};
ghost use Rattle.lt_store.specs.Rerun.{answer_on, map_after};
ghost use Rattle.lt_store.specs.Undoing.{unwound, CanUnwind};
ghost use Rattle.lt_store.specs.Acting.{did, HasBegun};
ghost use Rattle.lt_store.specs.Book.{Acts, Ascends};

use crate::acting::{perform, unwind};
use crate::answer::Answer;
use crate::beginning;
use crate::done::{Done, DoneList};
use crate::op::Op;
use crate::open::Open;
use crate::rows::Rows;
use std::alloc::{AllocError, Global};
use std::collections::BTreeSet;
use std::marker::Model;

/// The map with the transactions on it, and those that have ended.
#[derive(Drop)]
pub(crate) struct Book {
    pub(crate) alloc: Global,
    pub(crate) rows: Rows,
    pub(crate) commits: Vec<DoneList>,
    pub(crate) live: Vec<Open>,
    pub(crate) ended: BTreeSet<u64>,
    pub(crate) gone: BTreeSet<u64>,
}

impl Model for Book {
    ghost use Rattle.lt_store.specs.Book.{BookView};

    ghost Value = { BookView };

    ghost view = { λ b. record { rows = b.rows; commits = b.commits.items; live = b.live.items; ended = b.ended.keys; gone = b.gone.keys } };
}

impl Book {
    /// An empty map, with no transaction.
    pub(crate) fn new(alloc: Global) -> Book
        ensures { result ≡ record { rows = []; commits = []; live = []; ended = []; gone = [] } }
    {
        Book {
            alloc,
            rows: Rows::new(alloc),
            commits: Vec::new(alloc),
            live: Vec::new(alloc),
            ended: BTreeSet::new(alloc),
            gone: BTreeSet::new(alloc),
        }
    }

    /// Whether the transaction was out of locks before.
    pub(crate) fn is_gone(&self, txn: u64) -> bool
        ensures { result ≡ is_in txn self.now.gone }
    {
        self.gone.contains(&txn)
    }

    /// Whether the transaction has committed or aborted.
    pub(crate) fn has_ended(&self, txn: u64) -> bool
        ensures { result ≡ is_in txn self.now.ended }
    {
        self.ended.contains(&txn)
    }

    /// The place of a transaction among the live ones, where it begins if it is not there.
    pub(crate) fn begin(&mut self, txn: u64) -> Result<usize, AllocError>
        requires { Ascends self.old.live }
        ensures begun { IfOk result (HasBegun self.old.live self.new.live txn) }
        ensures book { OnOk result (self.new ≡ record self.old { live = self.new.live }) }
    {
        beginning::begin(&mut self.live, self.alloc, txn)
    }

    /// What a live transaction has done.
    pub(crate) fn done(&self, place: usize) -> &[Done]
        requires { place < length self.now.live }
        ensures { (d : Acts) → result.now ≡ (slice_index_or self.now.live place d).done }
    {
        self.live[place].done()
    }

    /// A live transaction does an operation.
    pub(crate) fn perform(&mut self, place: usize, op: &Op) -> Result<Answer, AllocError>
        requires { place < length self.old.live }
        ensures answer { IfOk result (λ answer. answer ≡ answer_on self.old.rows op.now) }
        ensures book { OnOk result ((d : Acts) → self.new ≡ record self.old {
          rows = map_after self.old.rows op.now;
          live = slice_set self.old.live place (did (slice_index_or self.old.live place d) self.old.rows op.now);
        }) }
    {
        perform(&mut self.rows, &mut self.live[place], self.alloc, op)
    }

    /// What a live transaction has done is committed, and it is none any more.
    pub(crate) fn commit(&mut self, place: usize) -> Result<(), AllocError>
        requires { place < length self.old.live }
        ensures { OnOk result ((d : Acts) → self.new ≡ record self.old {
          commits = self.old.commits ++ (slice_index_or self.old.live place d).done ∷ [];
          live = remove self.old.live place;
        }) }
    {
        let open = self.live.remove(place);
        self.commits.push(open.into_done())?;
        Ok(())
    }

    /// A live transaction is undone, and is none any more.
    pub(crate) fn undo(&mut self, place: usize) -> Open
        requires place { place < length self.old.live }
        requires there { (d : Acts) → CanUnwind self.old.rows (slice_index_or self.old.live place d).undo }
        ensures acts { (d : Acts) → result ≡ slice_index_or self.old.live place d }
        ensures book { (d : Acts) → self.new ≡ record self.old {
          rows = unwound self.old.rows (slice_index_or self.old.live place d).undo;
          live = remove self.old.live place;
        } }
    {
        let open = self.live.remove(place);
        unwind(&mut self.rows, open.undo());
        open
    }

    /// The transaction has ended.
    #[tactic(auto, using(crate::proofs::NumberLaws::key_is_number))]
    pub(crate) fn add_ended(&mut self, txn: u64) -> Result<(), AllocError>
        ensures { OnOk result (self.new ≡ record self.old { ended = with_number txn self.old.ended }) }
    {
        self.ended.insert(txn)?;
        Ok(())
    }

    /// The transaction was out of locks.
    #[tactic(auto, using(crate::proofs::NumberLaws::key_is_number))]
    pub(crate) fn add_gone(&mut self, txn: u64) -> Result<(), AllocError>
        ensures { OnOk result (self.new ≡ record self.old { gone = with_number txn self.old.gone }) }
    {
        self.gone.insert(txn)?;
        Ok(())
    }
}
