//! The pass of the plain table.
ghost use Rattle.std.specs.Prelude.{◌≡◌, ◌^◌, ◌≤◌, ◌<◌, ◌+◌, ◌-◌, [], ◌∷◌, replicate, length, slice_set, OnOk, OnErr, IfOk, IfErr};
ghost use Rattle.lt_seq.specs.declared.event.Deed.TheVariants.{Ask, Free, Who, Join};
ghost use Rattle.lt_seq.specs.declared.event.Reply.TheVariants.{Granted};
ghost use Rattle.lt_seq.specs.Yard.{shows, place_after, places_end, OneMore, HasAll, IsSound, IsPlan, Learns, Shares};
ghost use Rattle.lt_seq.specs.Alone.{AloneCaused};
ghost use Rattle.lt_seq.specs.Passes.{IsRest};
ghost use Rattle.lt_seq.specs.SeqPass.{plain, alone_view};

use crate::event::{Deed, Event, JoinNote, Look, Receipt};
use crate::fault::Fault;
use crate::lists::HeldList;
use crate::pairs::add_held;
use crate::plan::{PLACES_END, YardPlan};
use crate::seq_note::SeqNote;
use crate::seq_trees::SeqTrees;
use crate::yard::{Closed, Pass};
use lt_ranges::KeyRange;
use std::alloc::{AllocError, Global};
use std::marker::Model;
use std::mem;

/// The one pass of a plain table. It holds the table, and its own calls are the whole history.
#[derive(Drop)]
pub struct SeqPass {
    plan: YardPlan,
    alloc: Global,
    number: u32,
    rights: u32,
    trees: SeqTrees,
    mine: Vec<Receipt>,
    notes: Vec<JoinNote>,
}

impl Model for SeqPass {
    ghost use Rattle.std.specs.Prelude.{◌≡◌, ◌≤◌};
    ghost use Rattle.lt_seq.specs.SeqPass.{Planned, IsSequential, alone_view};

    ghost Value = { Planned };

    ghost view = { λ s. record { plan = s.plan; view = alone_view s.number s.rights s.mine.items s.notes.items } };

    ghost invariant = { λ s. IsSequential s.plan s.number s.rights s.trees s.mine.items };
}

impl Pass for SeqPass {
    ghost use Rattle.lt_seq.specs.SeqPass.{origin_in};

    ghost origin = { origin_in };

    ghost view = { λ s. s.view };

    fn number(&self) -> u32 {
        self.number
    }

    fn rights(&self) -> u32 {
        self.rights
    }
}

impl SeqPass {
    /// A pass of a fresh table.
    pub(crate) fn new(alloc: Global, plan: &YardPlan) -> Result<Self, AllocError>
        requires plan { IsPlan plan.now }
        requires passes { plan.now.passes ≡ 1 }
        ensures { IfOk result (λ p. p ≡ record { plan = plan.now; view = alone_view 0 1 [] [] }) }
    {
        Ok(SeqPass {
            plan: *plan,
            alloc,
            number: 0,
            rights: 1,
            trees: SeqTrees::new(alloc, plan.trees)?,
            mine: Vec::new(alloc),
            notes: Vec::new(alloc),
        })
    }

    /// The place of the next event, and the rows in use.
    pub(crate) fn look(&self) -> Look
        ensures seen { result ≡ shows (plain self.now.plan) self.now.view.front }
        ensures sound { IsSound (plain self.now.plan) self.now.view }
        ensures all { 1 ≤ self.now.view.rights → HasAll (plain self.now.plan) self.now.view }
    {
        Look {
            place: self.plan.first + self.mine.len() as u64,
            used: self.trees.used(),
        }
    }

    /// The place of the next event, where there is one.
    pub(crate) fn place(&self) -> Result<u64, Fault>
        ensures ok { IfOk result (λ place. place ≡ place_after (plain self.now.plan) self.now.view.front) }
        ensures room { OnOk result (place_after (plain self.now.plan) self.now.view.front < places_end) }
        ensures err { IfErr result (λ fault. AloneCaused (plain self.now.plan) self.now.view.front fault) }
        ensures sound { IsSound (plain self.now.plan) self.now.view }
    {
        let place = self.plan.first + self.mine.len() as u64;
        if place >= PLACES_END {
            return Err(Fault::HistoryFull { place });
        }
        Ok(place)
    }

    /// Asks in a tree: one event more, or want of memory and no change.
    pub(crate) fn ask(
        &mut self,
        txn: u64,
        tree: u32,
        range: &KeyRange,
    ) -> Result<Receipt, AllocError>
        requires tree { tree < self.old.plan.trees }
        requires room { place_after (plain self.old.plan) self.old.view.front < places_end }
        ensures plan { self.new.plan ≡ self.old.plan }
        ensures sound { IsSound (plain self.new.plan) self.new.view }
        ensures ok { IfOk result (λ r. OneMore (plain self.old.plan) self.old.view self.new.view txn (Ask tree range.now Granted) r) }
        ensures err { OnErr result (self.new ≡ self.old) }
    {
        let reply = self
            .trees
            .reply(tree, self.alloc, self.plan.buffer, txn, range)?;
        let kept = reply.again()?;
        self.mine.reserve(1)?;
        let place = self.plan.first + self.mine.len() as u64;
        self.trees.ask(tree, self.plan.buffer, txn, range, &reply)?;
        self.mine.push_reserved(receipt(
            place,
            self.number,
            txn,
            Deed::Ask {
                tree,
                range: *range,
                reply: kept,
            },
        ));
        Ok(receipt(
            place,
            self.number,
            txn,
            Deed::Ask {
                tree,
                range: *range,
                reply,
            },
        ))
    }

    /// Frees in a tree: one event more, or want of memory and no change.
    pub(crate) fn free(
        &mut self,
        txn: u64,
        tree: u32,
        range: &KeyRange,
        first: bool,
    ) -> Result<Receipt, AllocError>
        requires tree { tree < self.old.plan.trees }
        requires room { place_after (plain self.old.plan) self.old.view.front < places_end }
        ensures plan { self.new.plan ≡ self.old.plan }
        ensures sound { IsSound (plain self.new.plan) self.new.view }
        ensures ok { IfOk result (λ r. OneMore (plain self.old.plan) self.old.view self.new.view txn (Free tree range.now first 0) r) }
        ensures err { OnErr result (self.new ≡ self.old) }
    {
        self.mine.reserve(1)?;
        let place = self.plan.first + self.mine.len() as u64;
        let count = self.trees.free(tree, txn, range, first);
        self.mine.push_reserved(receipt(
            place,
            self.number,
            txn,
            Deed::Free {
                tree,
                range: *range,
                first,
                count,
            },
        ));
        Ok(receipt(
            place,
            self.number,
            txn,
            Deed::Free {
                tree,
                range: *range,
                first,
                count,
            },
        ))
    }

    /// Asks whose ranges stand in the way of the named transaction.
    pub(crate) fn who(
        &mut self,
        txn: u64,
        as_txn: u64,
        tree: u32,
        range: &KeyRange,
    ) -> Result<Receipt, AllocError>
        requires tree { tree < self.old.plan.trees }
        requires room { place_after (plain self.old.plan) self.old.view.front < places_end }
        ensures plan { self.new.plan ≡ self.old.plan }
        ensures sound { IsSound (plain self.new.plan) self.new.view }
        ensures ok { IfOk result (λ r. OneMore (plain self.old.plan) self.old.view self.new.view txn (Who tree range.now as_txn []) r) }
        ensures err { OnErr result (self.new ≡ self.old) }
    {
        let owners = self.trees.owners(tree, self.alloc, as_txn, range)?;
        let kept = owners.again()?;
        self.mine.reserve(1)?;
        let place = self.plan.first + self.mine.len() as u64;
        self.trees.end_for(tree, as_txn);
        self.mine.push_reserved(receipt(
            place,
            self.number,
            txn,
            Deed::Who {
                tree,
                range: *range,
                as_txn,
                owners: kept,
            },
        ));
        Ok(receipt(
            place,
            self.number,
            txn,
            Deed::Who {
                tree,
                range: *range,
                as_txn,
                owners,
            },
        ))
    }

    /// Joins the neighbours of a tree, and leaves a note: one event more, or want of memory and no change.
    pub(crate) fn join(&mut self, txn: u64, tree: u32) -> Result<Receipt, AllocError>
        requires tree { tree < self.old.plan.trees }
        requires room { place_after (plain self.old.plan) self.old.view.front < places_end }
        ensures plan { self.new.plan ≡ self.old.plan }
        ensures sound { IsSound (plain self.new.plan) self.new.view }
        ensures ok { IfOk result (λ r. OneMore (plain self.old.plan) self.old.view self.new.view txn (Join tree 0 0) r) }
        ensures err { OnErr result (self.new ≡ self.old) }
    {
        let pairs = self.trees.joined(tree, self.alloc)?;
        let mut left = Vec::new(self.alloc);
        add_held(&mut left, tree, &pairs)?;
        self.mine.reserve(1)?;
        self.notes.reserve(1)?;
        let place = self.plan.first + self.mine.len() as u64;
        let after = pairs.len() as u64;
        let before = self.trees.put(tree, pairs);
        self.notes.push_reserved(JoinNote {
            place,
            tree,
            before,
            after,
            pairs: HeldList::of(left),
        });
        self.mine.push_reserved(receipt(
            place,
            self.number,
            txn,
            Deed::Join {
                tree,
                before,
                after,
            },
        ));
        Ok(receipt(
            place,
            self.number,
            txn,
            Deed::Join {
                tree,
                before,
                after,
            },
        ))
    }

    /// Hands out the notes.
    pub(crate) fn take_notes(&mut self) -> Vec<JoinNote>
        ensures plan { self.new.plan ≡ self.old.plan }
        ensures notes { result.items ≡ self.old.view.notes }
        ensures pass { self.new.view ≡ record self.old.view { notes = [] } }
    {
        mem::replace(&mut self.notes, Vec::new(self.alloc))
    }

    /// Gives rights away.
    pub(crate) fn share(&mut self, rights: u32) -> SeqNote
        requires enough { rights ≤ self.old.view.rights }
        ensures plan { self.new.plan ≡ self.old.plan }
        ensures note_plan { result.plan ≡ self.old.plan }
        ensures pass { self.new.view ≡ record self.old.view { rights = self.old.view.rights - rights } }
        ensures note { Shares (plain self.old.plan) self.old.view rights result.view }
    {
        self.rights -= rights;
        SeqNote::new(self.plan, rights)
    }

    /// Takes rights.
    pub(crate) fn learn(&mut self, note: SeqNote)
        requires fits { self.old.view.rights + note.view.rights ≤ self.old.plan.passes }
        ensures plan { self.new.plan ≡ self.old.plan }
        ensures learns { Learns (plain self.old.plan) self.old.view note.view self.new.view }
    {
        self.rights += note.rights();
    }

    /// Ends the table, and tells its history, its rows in use and what is still held.
    pub(crate) fn close(self, alloc: Global) -> Result<Closed, AllocError>
        ensures one { self.plan.passes ≡ 1 }
        ensures rest { IfOk result (IsRest (plain self.plan) self.view.front (self.view ∷ [])) }
    {
        let look = self.look();
        let left = self.trees.held(alloc)?;
        let places = self.mine.len() as u64;
        let mut lists = Vec::new(alloc);
        lists.push(self.mine)?;
        Ok(Closed {
            lists,
            places,
            used: look.used,
            left,
        })
    }
}

/// The receipt of a deed.
fn receipt(place: u64, pass: u32, txn: u64, deed: Deed) -> Receipt
    ensures { result ≡ record { place = place; event = record { pass = pass; txn = txn; deed = deed } } }
{
    Receipt {
        place,
        event: Event { pass, txn, deed },
    }
}
