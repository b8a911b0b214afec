//! A thread's part in a lock table of trees.
ghost use Rattle.std.specs.Prelude.{◌<◌};
ghost use Rattle.lt_rows.specs.Handles.{knows};
ghost use Rattle.lt_tree.specs.States.{HoldsNone};

use lt_rows::RowPass;

/// A thread's part in a `Locktree`. Between two calls it holds no row.
#[derive(Drop)]
pub struct TreePass {
    pub(crate) pass: RowPass,
    ghost idle: { HoldsNone (knows pass) },
    ghost below: { pass.number < (knows pass).plan.passes },
}

impl TreePass {
    ghost use Rattle.std.specs.Prelude.{◌≡◌, ◌+◌};
    ghost use Rattle.lt_locktree.specs.Calls.{sees};

    /// Its number among the passes of its table, from 0.
    pub fn number(&self) -> u32
        ensures { (result + 1 ≡ (sees self.now).mark) × (result < (sees self.now).plan.passes) }
    {
        self.pass.number()
    }

    /// Its rights. A pass that has all of its table's rights knows that no other pass acts.
    pub fn rights(&self) -> u32
        ensures { result ≡ (sees self.now).rights }
    {
        self.pass.rights()
    }

    /// The pass of the rows, which holds none.
    pub fn into_rows(self) -> RowPass
        ensures { (result ≡ self.pass) × HoldsNone (knows result) }
    {
        self.pass
    }
}
