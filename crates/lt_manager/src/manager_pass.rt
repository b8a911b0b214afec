//! A thread's part in the lock table.
use lt_locktree::{Locktree, TreePass};
use lt_seq::{Fault, JoinNote, Look, PLACES_END, Pass, Receipt};
use std::marker::Model;

/// A thread's part in a `Manager`: it keeps the receipts of its calls, and the notes of its joins until they are taken.
#[derive(Drop)]
pub struct ManagerPass {
    pub(crate) pass: TreePass,
    pub(crate) mine: Vec<Receipt>,
    pub(crate) notes: Vec<JoinNote>,
}

impl Model for ManagerPass {
    ghost use Rattle.lt_manager.specs.Views.{Kept, IsKept};

    ghost Value = { Kept };

    ghost view = { λ p. record { pass = p.pass; mine = p.mine.items; notes = p.notes.items } };

    ghost invariant = { λ p. IsKept (record { pass = p.pass; mine = p.mine.items; notes = p.notes.items }) };
}

impl Pass for ManagerPass {
    ghost use Rattle.lt_manager.specs.Views.{origin_in, view_of};

    ghost origin = { origin_in };

    ghost view = { view_of };

    fn number(&self) -> u32 {
        self.pass.number()
    }

    fn rights(&self) -> u32 {
        self.pass.rights()
    }
}

impl ManagerPass {
    ghost use Rattle.std.specs.Prelude.{◌≡◌, ◌<◌, true, OnOk, IfOk, IfErr};
    ghost use Rattle.lt_rows.specs.Plan.{setting_of};
    ghost use Rattle.lt_seq.specs.Yard.{shows, Watches, Caused, place_after, places_end};
    ghost use Rattle.lt_seq.specs.Alone.{AloneCaused};
    ghost use Rattle.lt_rows.specs.Views.{is_near, is_below};
    ghost use Rattle.lt_locktree.specs.Calls.{sees, IsOfTable, StaysOf};
    ghost use Rattle.lt_manager.specs.Views.{view_of};

    /// The place of the next event, and the rows in use.
    pub(crate) fn look(&mut self, table: &Locktree) -> Look
        requires of { IsOfTable table.now self.old.pass }
        ensures of { StaysOf table.now self.old.pass self.new.pass }
        ensures seen { result ≡ shows (setting_of (sees self.old.pass).plan) (sees self.new.pass).front }
        ensures watches { Watches (setting_of (sees self.old.pass).plan) (view_of self.old) (view_of self.new) }
        ensures fresh { (sees self.new.pass).fresh ≡ is_near (sees self.old.pass).plan (sees self.new.pass).front }
        ensures licensed { (sees self.new.pass).licensed ≡ is_below (sees self.old.pass).plan (sees self.new.pass).front }
    {
        table.look(&mut self.pass)
    }

    /// Looks, and answers what it saw where there is a place for an event.
    pub(crate) fn look_for_place(&mut self, table: &Locktree) -> Result<Look, Fault>
        requires of { IsOfTable table.now self.old.pass }
        ensures of { StaysOf table.now self.old.pass self.new.pass }
        ensures seen { IfOk result (λ look. look ≡ shows (setting_of (sees self.old.pass).plan) (sees self.new.pass).front) }
        ensures room { OnOk result (place_after (setting_of (sees self.old.pass).plan) (sees self.new.pass).front < places_end) }
        ensures fresh { OnOk result ((sees self.new.pass).fresh ≡ true) }
        ensures licensed { (sees self.new.pass).licensed ≡ is_below (sees self.old.pass).plan (sees self.new.pass).front }
        ensures watches { Watches (setting_of (sees self.old.pass).plan) (view_of self.old) (view_of self.new) }
        ensures err { IfErr result (λ fault. Caused (setting_of (sees self.old.pass).plan) (view_of self.old) (view_of self.new) fault
            (sees self.new.pass).front) }
        ensures full { IfErr result (AloneCaused (setting_of (sees self.old.pass).plan) (sees self.new.pass).front) }
    {
        let look = self.look(table);
        if look.place >= PLACES_END {
            return Err(Fault::HistoryFull { place: look.place });
        }
        Ok(look)
    }
}
