//! The note of the plain table's pass.
use crate::plan::YardPlan;
use crate::yard::Note;
use std::marker::Model;

/// A note of the one pass of a plain table. It carries rights alone, since there is no other pass to tell.
#[derive(Drop)]
pub struct SeqNote {
    plan: YardPlan,
    rights: u32,
}

impl Model for SeqNote {
    ghost use Rattle.std.specs.Prelude.{[]};
    ghost use Rattle.lt_seq.specs.SeqPass.{PlannedNote};

    ghost Value = { PlannedNote };

    ghost view = { λ n. record { plan = n.plan; view = record { rights = n.rights; front = [] } } };
}

impl Note for SeqNote {
    ghost use Rattle.lt_seq.specs.SeqPass.{note_origin};

    ghost origin = { note_origin };

    ghost view = { λ n. n.view };
}

impl SeqNote {
    ghost use Rattle.std.specs.Prelude.{◌≡◌, []};

    /// A note of so many rights.
    pub(crate) fn new(plan: YardPlan, rights: u32) -> SeqNote
        ensures { result ≡ record { plan = plan; view = record { rights = rights; front = [] } } }
    {
        SeqNote { plan, rights }
    }

    /// How many rights it carries.
    pub(crate) fn rights(&self) -> u32
        ensures rights { result ≡ self.now.view.rights }
        ensures front { self.now.view.front ≡ [] }
    {
        self.rights
    }
}
