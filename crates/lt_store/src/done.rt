//! What a transaction has done.
ghost use Rattle.std.specs.Prelude.{◌≡◌};

use crate::answer::Answer;
use crate::op::Op;
use std::marker::Model;

/// An operation that was done, with its answer.
#[derive(Debug, Drop)]
pub struct Done {
    pub op: Op,
    pub answer: Answer,
}

/// What a transaction has done, in order.
#[derive(Debug, Drop)]
pub struct DoneList {
    list: Vec<Done>,
}

impl Model for DoneList {
    ghost use Rattle.std.specs.Prelude.{List};
    ghost use Rattle.lt_store.specs.declared.done.Done.{Done};

    ghost Value = { List Done };

    ghost view = { λ a. a.list.items };
}

impl DoneList {
    /// These operations, in this order. It takes no memory.
    pub(crate) fn of(list: Vec<Done>) -> DoneList
        ensures { result ≡ list.items }
    {
        DoneList { list }
    }

    /// The operations in order.
    pub fn as_slice(&self) -> &[Done]
        ensures { result.now ≡ self.now }
    {
        &self.list
    }
}
