//! The transactions that wait.
ghost use Rattle.std.specs.Prelude.{◌≡◌, [], true, false, is_ok, if◌then◌else◌, IfOk, IfErr, All};
ghost use Rattle.std.specs.List.Sorted.{IsStrictlyIncreasing};
ghost use Rattle.lt_requests.specs.Search.{wishes_of};
ghost use Rattle.lt_requests.specs.Registered.{Ascend, is_registered, wish_of, next_above, without};
ghost use Rattle.lt_requests.specs.Registered.{with_wish, IsFoundAt, IsGapAt, IsNextAt};

use crate::wish::Wish;
use std::alloc::{AllocError as OutOfMemory, Global};
use std::marker::Model;

/// What those that wait ask for: at most one wish of a transaction, by ascending transaction.
///
/// Whether a transaction waits, and what for, is found in the logarithm of how many wait.
#[derive(Debug, Drop)]
pub struct Registry {
    wishes: Vec<Wish>,
}

impl Model for Registry {
    ghost use Rattle.std.specs.Prelude.{List};
    ghost use Rattle.lt_requests.specs.declared.wish.Wish.{Wish};
    ghost use Rattle.lt_requests.specs.Registered.{Ascend};

    ghost Value = { List Wish };

    ghost view = { λ r. r.wishes.items };

    ghost invariant = { λ r. Ascend r.wishes.items };
}

impl Registry {
    /// A registry in which none waits. Takes no memory.
    pub fn new(alloc: Global) -> Registry
        ensures { result ≡ [] }
    {
        Registry {
            wishes: Vec::new(alloc),
        }
    }

    /// All wishes, by ascending transaction.
    pub fn waiting(&self) -> &[Wish]
        ensures all { result.now ≡ self.now }
        ensures ascend { Ascend self.now }
    {
        &self.wishes
    }

    /// The least transaction above this one that waits. None where none is greater.
    pub fn next_after(&self, txn: u64) -> Option<u64>
        ensures { result ≡ next_above txn self.now }
    {
        let at = self.place_above(txn);
        if at < self.wishes.len() {
            Some(self.wishes[at].txn)
        } else {
            None
        }
    }

    /// Where those with greater numbers begin.
    fn place_above(&self, txn: u64) -> usize
        ensures { IsNextAt self.now txn result }
    {
        self.wishes.partition_point(|wish| wish.txn <= txn)
    }

    /// Whether the transaction waits.
    pub fn is_waiting(&self, txn: u64) -> bool
        ensures { result ≡ is_registered txn self.now }
    {
        self.search(txn).is_ok()
    }

    /// What the transaction waits for. None where it does not wait.
    pub fn wish_of(&self, txn: u64) -> Option<Wish>
        ensures { result ≡ wish_of txn self.now }
    {
        match self.search(txn) {
            Ok(at) => Some(self.wishes[at]),
            Err(_) => None,
        }
    }

    /// Takes the transaction out, if it waits, and tells whether it did. The others stay as they are.
    pub fn forget(&mut self, txn: u64) -> bool
        ensures was { result ≡ is_registered txn self.old }
        ensures left { self.new ≡ without txn self.old }
    {
        match self.search(txn) {
            Ok(at) => {
                self.wishes.remove(at);
                true
            }
            Err(_) => false,
        }
    }

    /// What those of the owners that wait wait for, by ascending transaction. The owners ascend.
    pub(crate) fn named(&self, alloc: Global, owners: &[u64]) -> Result<Vec<Wish>, OutOfMemory>
        requires { IsStrictlyIncreasing owners.now }
        ensures named { IfOk result (λ named. named.items ≡ wishes_of owners.now self.now) }
        ensures ascend { IfOk result (λ named. Ascend named.items) }
        ensures waiting { IfOk result (λ named. All (λ w. is_registered w.txn self.now ≡ true) named.items) }
    {
        let most = owners.len().min(self.wishes.len());
        let mut named = Vec::with_capacity(alloc, most)?;
        for owner in owners {
            if let Some(wish) = self.wish_of(*owner) {
                named.push(wish)?;
            }
        }
        Ok(named)
    }

    /// Adds the wish of a transaction that does not wait. Want of memory leaves the registry as it was.
    pub(crate) fn add(&mut self, wish: Wish) -> Result<(), OutOfMemory>
        requires { is_registered wish.txn self.old ≡ false }
        ensures { self.new ≡ (if is_ok result then with_wish wish self.old else self.old) }
    {
        let Err(at) = self.search(wish.txn) else {
            unreachable!()
        };
        self.wishes.insert(at, wish)?;
        Ok(())
    }

    /// Where the transaction's wish is, or where it would go.
    fn search(&self, txn: u64) -> Result<usize, usize>
        ensures found { IfOk result (IsFoundAt self.now txn) }
        ensures absent { IfErr result (IsGapAt self.now txn) }
    {
        self.wishes.binary_search_by_key(&txn, |wish| wish.txn)
    }
}
