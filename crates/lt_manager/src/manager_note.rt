//! What one pass of the lock table hands to another.
use lt_rows::RowNote;
use lt_seq::Note;
use std::marker::Model;

/// A note that one pass of a `Manager` hands to another. It carries rights, and the history as its pass had seen it.
#[derive(Drop)]
pub struct ManagerNote {
    pub(crate) note: RowNote,
}

impl Model for ManagerNote {
    ghost use Rattle.lt_manager.specs.Views.{Noted, IsNoted};

    ghost Value = { Noted };

    ghost view = { λ n. record { note = n.note } };

    ghost invariant = { λ n. IsNoted (record { note = n.note }) };
}

impl Note for ManagerNote {
    ghost use Rattle.lt_manager.specs.Views.{note_origin, told_by};

    ghost origin = { note_origin };

    ghost view = { told_by };
}
