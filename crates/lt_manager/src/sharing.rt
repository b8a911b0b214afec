//! What passes tell each other.
use crate::manager_note::ManagerNote;
use crate::manager_pass::ManagerPass;
use lt_locktree::Locktree;

impl ManagerPass {
    ghost use Rattle.std.specs.Prelude.{◌≡◌, ◌≤◌, ◌-◌};
    ghost use Rattle.lt_rows.specs.Plan.{setting_of};
    ghost use Rattle.lt_seq.specs.Yard.{Shares, Learns};
    ghost use Rattle.lt_locktree.specs.Calls.{sees, IsOfTable, StaysOf};
    ghost use Rattle.lt_manager.specs.Views.{view_of, told_by, IsNoteOfTable};

    /// Gives rights away, with all that it has seen.
    pub(crate) fn share(&mut self, table: &Locktree, rights: u32) -> ManagerNote
        requires of { IsOfTable table.now self.old.pass }
        requires enough { rights ≤ (sees self.old.pass).rights }
        ensures of { IsOfTable table.now self.new.pass }
        ensures of_note { IsNoteOfTable table.now result }
        ensures pass { view_of self.new ≡ record (view_of self.old) { rights = (view_of self.old).rights - rights } }
        ensures note { Shares (setting_of (sees self.old.pass).plan) (view_of self.old) rights (told_by result) }
    {
        ManagerNote {
            note: table.share(&mut self.pass, rights),
        }
    }

    /// Takes the rights of a note, and the longer of the two fronts.
    pub(crate) fn learn(&mut self, table: &Locktree, note: ManagerNote)
        requires of { IsOfTable table.now self.old.pass }
        requires of_note { IsNoteOfTable table.now note }
        ensures of { IsOfTable table.now self.new.pass }
        ensures learns { Learns (setting_of (sees self.old.pass).plan) (view_of self.old) (told_by note) (view_of self.new) }
    {
        table.learn(&mut self.pass, note.note);
    }
}
