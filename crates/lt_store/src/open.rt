//! A transaction that has not ended.
ghost use Rattle.std.specs.Prelude.{◌≡◌, [], ◌∷◌, ◌++◌, OnOk};

use crate::done::{Done, DoneList};
use crate::undo::Undo;
use lt_ranges::Key;
use std::alloc::{AllocError, Global};
use std::marker::Model;

/// A transaction that has not ended, with what it has done and what undoes its puts.
#[derive(Debug, Drop)]
pub(crate) struct Open {
    txn: u64,
    done: Vec<Done>,
    undo: Vec<Undo>,
}

impl Model for Open {
    ghost use Rattle.lt_store.specs.Book.{Acts};

    ghost Value = { Acts };

    ghost view = { λ o. record { txn = o.txn; done = o.done.items; undo = o.undo.items } };
}

impl Open {
    /// One that has done nothing.
    pub(crate) fn new(alloc: Global, txn: u64) -> Open
        ensures { result ≡ record { txn = txn; done = []; undo = [] } }
    {
        Open {
            txn,
            done: Vec::new(alloc),
            undo: Vec::new(alloc),
        }
    }

    /// Its number.
    pub(crate) fn txn(&self) -> u64
        ensures { result ≡ self.now.txn }
    {
        self.txn
    }

    /// What it has done.
    pub(crate) fn done(&self) -> &[Done]
        ensures { result.now ≡ self.now.done }
    {
        &self.done
    }

    /// What undoes its puts.
    pub(crate) fn undo(&self) -> &[Undo]
        ensures { result.now ≡ self.now.undo }
    {
        &self.undo
    }

    /// It has done one operation more.
    pub(crate) fn add(&mut self, done: Done) -> Result<(), AllocError>
        ensures { OnOk result (self.new ≡ record self.old { done = self.old.done ++ done ∷ [] }) }
    {
        self.done.push(done)?;
        Ok(())
    }

    /// This was found of a key before its next put.
    pub(crate) fn add_undo(&mut self, key: &Key, old: Option<u64>) -> Result<(), AllocError>
        ensures { OnOk result (self.new ≡ record self.old { undo = self.old.undo ++ record { key = key.now; old = old } ∷ [] }) }
    {
        self.undo.push(Undo { key: *key, old })?;
        Ok(())
    }

    /// What it has done, once it has ended. It takes no memory.
    pub(crate) fn into_done(self) -> DoneList
        ensures { result ≡ self.done }
    {
        DoneList::of(self.done)
    }
}
