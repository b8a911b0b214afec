//! A thread's handle: a share of the table, and a pass of it.
ghost use Rattle.std.specs.Prelude.{◌≡◌, ◌⊎◌, ◌<◌, ◌≤◌, true, IfSome, IfNone};
ghost use Rattle.std.specs.Arc.{arc_value};
ghost use Rattle.lt_locktree.specs.Calls.{sees, IsOfTable};
ghost use Rattle.lt_c.specs.Told.{between, counted, IsNoRange, AskTold, FreeTold, ReleaseTold, WhoTold, JoinTold, LookTold};

use crate::answer::{
    BAD_ARGUMENT, DONE, LtAnswer, answer_of, ask_told, free_told, join_told, who_told,
};
use crate::counts::LtCounts;
use crate::{deeds, limit};
use lt_locktree::{Locktree, TreePass};
use lt_ranges::{Key, KeyRange};
use std::alloc::Global;
use std::sync::Arc;

/// A share of a table, a pass of it with a right, and what it counts. Between two calls it holds no row.
#[derive(Drop)]
pub struct Handle {
    pub table: Arc<Locktree, Global>,
    pub pass: TreePass,
    pub counts: LtCounts,
    ghost of: { IsOfTable (arc_value table) pass },
    ghost right: { 0 < (sees pass).rights },
}

/// The range between two keys, both in it; none where a key is longer than 63 bytes or the ends are the wrong way round.
fn range_of(left: &[u8], right: &[u8]) -> Option<KeyRange>
    ensures range { IfSome result (λ range. range ≡ between left.now right.now) }
    ensures none { IfNone result (IsNoRange left.now right.now) }
{
    let Ok(left) = Key::new(left) else {
        return None;
    };
    let Ok(right) = Key::new(right) else {
        return None;
    };
    match KeyRange::new(left, right) {
        Ok(range) => Some(range),
        Err(_) => None,
    }
}

impl Handle {
    /// Asks for a range. As many holders as there is room for are written.
    pub(crate) fn ask(
        &mut self,
        txn: u64,
        tree: u32,
        left: &[u8],
        right: &[u8],
        holders: &mut [u64],
    ) -> LtAnswer
        ensures table { arc_value self.new.table ≡ arc_value self.old.table }
        ensures counts { self.new.counts ≡ self.old.counts }
        ensures told { AskTold (sees self.old.pass) (sees self.new.pass) txn tree left.now right.now holders.old holders.new result }
    {
        if txn == 0 || tree >= self.table.plan().trees {
            return answer_of(BAD_ARGUMENT, 0, 0, 0);
        }
        let Some(range) = range_of(left, right) else {
            return answer_of(BAD_ARGUMENT, 0, 0, 0);
        };
        let limited = limit::ask(&self.table, &mut self.pass, txn, tree, &range);
        ask_told(limited, holders)
    }

    /// Frees the transaction's ranges that overlap the range.
    pub(crate) fn free(
        &mut self,
        txn: u64,
        tree: u32,
        left: &[u8],
        right: &[u8],
        first: bool,
    ) -> LtAnswer
        ensures table { arc_value self.new.table ≡ arc_value self.old.table }
        ensures counts { self.new.counts ≡ self.old.counts }
        ensures told { FreeTold (sees self.old.pass) (sees self.new.pass) txn tree left.now right.now first result }
    {
        if txn == 0 || tree >= self.table.plan().trees {
            return answer_of(BAD_ARGUMENT, 0, 0, 0);
        }
        let Some(range) = range_of(left, right) else {
            return answer_of(BAD_ARGUMENT, 0, 0, 0);
        };
        free_told(&deeds::free(&self.table, &mut self.pass, txn, tree, &range, first))
    }

    /// Frees all that the transaction holds in the tree.
    pub(crate) fn release(&mut self, txn: u64, tree: u32) -> LtAnswer
        ensures table { arc_value self.new.table ≡ arc_value self.old.table }
        ensures counts { self.new.counts ≡ self.old.counts }
        ensures told { ReleaseTold (sees self.old.pass) (sees self.new.pass) txn tree result }
    {
        if txn == 0 || tree >= self.table.plan().trees {
            return answer_of(BAD_ARGUMENT, 0, 0, 0);
        }
        let all = KeyRange::whole();
        free_told(&deeds::free(&self.table, &mut self.pass, txn, tree, &all, true))
    }

    /// Asks whose ranges overlap the range, but those of the transaction `as_txn`.
    pub(crate) fn who(
        &mut self,
        txn: u64,
        as_txn: u64,
        tree: u32,
        left: &[u8],
        right: &[u8],
        holders: &mut [u64],
    ) -> LtAnswer
        ensures table { arc_value self.new.table ≡ arc_value self.old.table }
        ensures counts { self.new.counts ≡ self.old.counts }
        ensures told { WhoTold (sees self.old.pass) (sees self.new.pass) txn as_txn tree left.now right.now holders.old holders.new result }
    {
        if as_txn == 0 || txn == 0 || tree >= self.table.plan().trees {
            return answer_of(BAD_ARGUMENT, 0, 0, 0);
        }
        let Some(range) = range_of(left, right) else {
            return answer_of(BAD_ARGUMENT, 0, 0, 0);
        };
        let named = deeds::who(&self.table, &mut self.pass, txn, as_txn, tree, &range);
        who_told(&named, holders)
    }

    /// Joins each longest run of neighbours of one owner in the tree.
    pub(crate) fn escalate(&mut self, txn: u64, tree: u32) -> LtAnswer
        ensures table { arc_value self.new.table ≡ arc_value self.old.table }
        ensures counts { self.new.counts ≡ self.old.counts }
        ensures told { JoinTold (sees self.old.pass) (sees self.new.pass) txn tree result }
    {
        if txn == 0 || tree >= self.table.plan().trees {
            return answer_of(BAD_ARGUMENT, 0, 0, 0);
        }
        join_told(&deeds::join(&self.table, &mut self.pass, txn, tree))
    }

    /// Looks at the place of the next event, and at the rows in use.
    pub(crate) fn look(&mut self) -> LtAnswer
        ensures table { arc_value self.new.table ≡ arc_value self.old.table }
        ensures counts { self.new.counts ≡ self.old.counts }
        ensures told { LookTold (sees self.old.pass) (sees self.new.pass) result }
    {
        let look = self.table.look(&mut self.pass);
        answer_of(DONE, 0, look.used, look.place)
    }

    /// Counts an answer.
    pub(crate) fn count(&mut self, answer: &LtAnswer)
        ensures table { arc_value self.new.table ≡ arc_value self.old.table }
        ensures pass { self.new.pass ≡ self.old.pass }
        ensures counts { self.new.counts ≡ counted self.old.counts answer.now }
    {
        self.counts = self.counts.with(answer);
    }
}
