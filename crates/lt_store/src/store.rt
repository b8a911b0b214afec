//! The map.
ghost use Rattle.std.specs.Prelude.{◌≡◌, ◌≤◌, ◌<◌, ◌^◌, length, false, IfOk};
ghost use Rattle.lt_ranges.specs.Numbers.{is_in};
ghost use Rattle.lt_store.specs.Rerun.{rerun};
ghost use Rattle.lt_store.specs.Steps.{Steps, IsSerial};
ghost use Rattle.lt_store.specs.View.{opening};

use crate::answer::Answer;
use crate::book::Book;
use crate::ending::end_all;
use crate::finished::Finished;
use crate::op::Move;
use crate::stepping;
use lt_seq::{Yard, YardPlan};
use std::alloc::{AllocError, Global};
use std::marker::Model;

/// A map of keys to numbers under transactions, over a lock table of its own: strict two-phase locking.
///
/// A transaction begins with its first step, and holds each range that it has read or put a key of until it ends. What was
/// committed is what the transactions come to one after another, in the order of their commits.
#[derive(Drop)]
pub struct Store<Y: Yard> {
    yard: Y,
    pass: Y::Pass,
    book: Book,
    steps: u64,
}

impl<Y: Yard> Model for Store<Y> {
    ghost use Rattle.lt_seq.specs.Yard.{origin_of};
    ghost use Rattle.lt_store.specs.Standing.{IsStanding};
    ghost use Rattle.lt_store.specs.Stepping.{view_of};
    ghost use Rattle.lt_store.specs.View.{StoreView};

    ghost Value = { StoreView };

    ghost view = { λ s. view_of (Y.setting s.yard).plan.limit (Y.Pass.view s.pass).front s.book s.steps };

    ghost invariant = { λ s. IsStanding (Y.Pass.origin s.pass) (origin_of (Y.identity s.yard) (Y.setting s.yard)) (Y.setting s.yard)
        (Y.Pass.view s.pass) s.book s.steps };
}

impl<Y: Yard> Store<Y> {
    /// An empty map, whose table has this limit of rows.
    ///
    /// The only error is want of memory.
    pub fn build(alloc: Global, limit: u64) -> Result<Store<Y>, AllocError>
        requires limit { (1 ≤ limit) × (limit ≤ 65536) }
        requires passes { 1 ≤ Y.MOST_PASSES }
        ensures { IfOk result (λ s. s ≡ opening limit) }
    {
        let plan = YardPlan {
            trees: 1,
            limit,
            buffer: 0,
            passes: 1,
            first: 0,
        };
        let (yard, mut passes) = Y::build(alloc, &plan)?;
        let Some(pass) = passes.pop() else {
            unreachable!();
        };
        Ok(Store {
            yard,
            pass,
            book: Book::new(alloc),
            steps: 0,
        })
    }

    /// Whether the transaction has committed or aborted, so that it makes no step more.
    pub fn has_ended(&self, txn: u64) -> bool
        ensures { result ≡ is_in txn self.now.ended }
    {
        self.book.has_ended(txn)
    }

    /// How many steps were made.
    pub fn steps(&self) -> u64
        ensures { result ≡ self.now.steps }
    {
        self.steps
    }

    /// A transaction makes a step: it asks for the range of the operation, and does the operation where it is granted that.
    /// It commits or aborts by releasing what it holds.
    ///
    /// Where others hold a key of the range, nothing is done, and the transaction keeps what it has. Where no lock is left,
    /// even after neighbouring ranges were joined, its puts are undone, its locks released, and it is gone. The answer
    /// tells which. A transaction that has ended makes no step more.
    ///
    /// The only error is want of memory, and then the map is gone.
    pub fn step(self, order: Move) -> Result<(Store<Y>, Answer), AllocError>
        requires txn { 1 ≤ order.txn }
        requires open { is_in order.txn self.ended ≡ false }
        requires few { self.steps < 2 ^ 32 }
        ensures steps { IfOk result (λ r. Steps self r.0 order.txn order.op r.1) }
        ensures serial { IfOk result (λ r. IsSerial r.0) }
    {
        let Store {
            yard,
            mut pass,
            mut book,
            steps,
        } = self;
        let answer = stepping::step(&yard, &mut pass, &mut book, &order, steps)?;
        Ok((
            Store {
                yard,
                pass,
                book,
                steps: steps + 1,
            },
            answer,
        ))
    }

    /// Aborts the transactions that have not ended, ascending, and tells the rows that are left: those of the transactions
    /// that committed, one after another.
    ///
    /// The only error is want of memory, and then the map is gone.
    pub fn finish(self) -> Result<Finished, AllocError>
        requires few { self.steps < 2 ^ 32 }
        ensures rows { IfOk result (λ f. f.rows ≡ rerun self.commits) }
        ensures commits { IfOk result (λ f. f.commits ≡ length self.commits) }
    {
        let Store {
            yard,
            mut pass,
            mut book,
            steps,
        } = self;
        end_all(&yard, &mut pass, &mut book, steps)?;
        let commits = book.commits.len() as u64;
        Ok(Finished {
            rows: book.rows.into_list(),
            commits,
        })
    }
}
