//! The trees of the plain table.
ghost use Rattle.std.specs.Prelude.{◌≡◌, ◌^◌, ◌≤◌, ◌<◌, [], replicate, length, slice_set, OnOk, OnErr, IfOk};
ghost use Rattle.lt_ranges.specs.Interval.{IsInterval};
ghost use Rattle.lt_seq.specs.declared.event.Reply.TheVariants.{Buffered};
ghost use Rattle.lt_seq.specs.Table.{fresh, tree_at, used, ask_reply, after_ask, free_count, after_free, mode_asked, ended};
ghost use Rattle.lt_seq.specs.Pairs.{IsLawful, others, joined};
ghost use Rattle.lt_seq.specs.Sound.{IsSoundTree};
ghost use Rattle.lt_seq.specs.Passes.{held_from};

use crate::event::{Held, Pair, Reply};
use crate::lists::Owners;
use crate::seq_tree::SeqTree;
use lt_ranges::KeyRange;
use std::alloc::{AllocError, Global};
use std::marker::Model;

/// The trees of a table, by their numbers.
#[derive(Debug, Drop)]
pub(crate) struct SeqTrees {
    list: Vec<SeqTree>,
}

impl Model for SeqTrees {
    ghost use Rattle.std.specs.Prelude.{List};
    ghost use Rattle.lt_seq.specs.Table.{TreeState};

    ghost Value = { List TreeState };

    ghost view = { λ t. t.list.items };
}

impl SeqTrees {
    /// As many fresh trees.
    pub(crate) fn new(alloc: Global, count: u32) -> Result<Self, AllocError>
        ensures { IfOk result (λ trees. trees ≡ replicate count fresh) }
    {
        let mut list = Vec::new(alloc);
        for _ in 0..count {
            list.push(SeqTree::new(alloc))?;
        }
        Ok(SeqTrees { list })
    }

    /// The rows in use.
    pub(crate) fn used(&self) -> u64
        requires { used self.now ≤ 2 ^ 39 }
        ensures { result ≡ used self.now }
    {
        let mut used = 0;
        for tree in &self.list {
            used += tree.rows();
        }
        used
    }

    /// The answer to an ask in a tree.
    pub(crate) fn reply(
        &self,
        tree: u32,
        alloc: Global,
        buffer: u64,
        txn: u64,
        range: &KeyRange,
    ) -> Result<Reply, AllocError>
        requires tree { tree < length self.now }
        requires lawful { IsLawful (tree_at self.now tree).pairs }
        ensures reply { IfOk result (λ reply. reply ≡ ask_reply buffer txn range.now (tree_at self.now tree)) }
        ensures ordered { IfOk result (λ reply. (¬ (reply ≡ Buffered)) → IsInterval range.now) }
    {
        self.list[tree as usize].reply(alloc, buffer, txn, range)
    }

    /// Does in a tree what an ask does, whose answer is this. Where memory is short the trees stay.
    pub(crate) fn ask(
        &mut self,
        tree: u32,
        buffer: u64,
        txn: u64,
        range: &KeyRange,
        reply: &Reply,
    ) -> Result<(), AllocError>
        requires tree { tree < length self.old }
        requires sound { IsSoundTree (tree_at self.old tree) }
        requires reply { reply.now ≡ ask_reply buffer txn range.now (tree_at self.old tree) }
        ensures ok { OnOk result (self.new ≡ slice_set self.old tree (after_ask buffer txn range.now (tree_at self.old tree))) }
        ensures err { OnErr result (self.new ≡ self.old) }
        ensures ordered { reply.now ≡ Buffered → IsInterval range.now }
    {
        self.list[tree as usize].ask(buffer, txn, range, reply)
    }

    /// Does in a tree what a free does, and answers its count.
    pub(crate) fn free(&mut self, tree: u32, txn: u64, range: &KeyRange, first: bool) -> u64
        requires tree { tree < length self.old }
        requires lawful { IsLawful (tree_at self.old tree).pairs }
        ensures count { result ≡ free_count txn range.now (tree_at self.old tree) }
        ensures after { self.new ≡ slice_set self.old tree (after_free txn range.now first (tree_at self.old tree)) }
        ensures ordered { IsInterval range.now }
    {
        self.list[tree as usize].free(txn, range, first)
    }

    /// The owners other than this one whose ranges overlap in a tree.
    pub(crate) fn owners(
        &self,
        tree: u32,
        alloc: Global,
        named: u64,
        range: &KeyRange,
    ) -> Result<Owners, AllocError>
        requires tree { tree < length self.now }
        requires lawful { IsLawful (tree_at self.now tree).pairs }
        ensures owners { IfOk result (λ owners. owners ≡ others named range.now (tree_at self.now tree).pairs) }
        ensures ordered { IsInterval range.now }
    {
        self.list[tree as usize].owners(alloc, named, range)
    }

    /// Ends a buffer of another in a tree.
    pub(crate) fn end_for(&mut self, tree: u32, named: u64)
        requires { tree < length self.old }
        ensures { self.new ≡ slice_set self.old tree
            (record { pairs = (tree_at self.old tree).pairs; mode = mode_asked named (tree_at self.old tree).mode }) }
    {
        self.list[tree as usize].end_for(named);
    }

    /// The pairs of a tree as a join leaves them.
    pub(crate) fn joined(&self, tree: u32, alloc: Global) -> Result<Vec<Pair>, AllocError>
        requires tree { tree < length self.now }
        requires lawful { IsLawful (tree_at self.now tree).pairs }
        ensures { IfOk result (λ pairs. pairs.items ≡ joined [] (tree_at self.now tree).pairs) }
    {
        self.list[tree as usize].joined(alloc)
    }

    /// Puts other pairs in a tree, ends a buffer, and says how many pairs it had.
    pub(crate) fn put(&mut self, tree: u32, pairs: Vec<Pair>) -> u64
        requires { tree < length self.old }
        ensures count { result ≡ length (tree_at self.old tree).pairs }
        ensures after { self.new ≡ slice_set self.old tree (record { pairs = pairs.items; mode = ended (tree_at self.old tree).mode }) }
    {
        self.list[tree as usize].put(pairs)
    }

    /// The pairs of all trees, by tree and left end.
    pub(crate) fn held(&self, alloc: Global) -> Result<Vec<Held>, AllocError>
        requires { length self.now ≤ 16 }
        ensures { IfOk result (λ left. left.items ≡ held_from 0 self.now) }
    {
        let mut left = Vec::new(alloc);
        for (number, tree) in self.list.iter().enumerate() {
            tree.add_held(number as u32, &mut left)?;
        }
        Ok(left)
    }
}
