//! The end of a search: its plan counts, and all rows are given back.
ghost use Rattle.std.specs.Prelude.{◌≡◌, true};
ghost use Rattle.lt_rows.specs.declared.view.View.{View};
ghost use Rattle.lt_rows.specs.Views.{AllHeld};
ghost use Rattle.lt_rows.specs.Lawful.{IsCommit, IsSettle};
ghost use Rattle.lt_rows.specs.Handles.{knows, IsPassOf, IsSamePass, Commits, Settles};
ghost use Rattle.lt_tree.specs.States.{HoldsNone, OnlyHeld};
ghost use Rattle.lt_tree.specs.Gathers.{IsLockedWith};
ghost use Rattle.lt_tree.specs.Pools.{pool_rows};
ghost use Rattle.lt_tree.specs.Writings.{Writes};

use crate::locked::Locked;
use crate::put::put_held;
use lt_rows::{RowImage, RowPass, RowTable};
use lt_seq::Event;

/// Stores the images of a plan.
pub fn write_all(table: &RowTable, pass: &mut RowPass, plan: &[RowImage])
    requires of { IsPassOf table.now pass.old }
    requires held { AllHeld (knows pass.old).held plan.now }
    ensures of { IsPassOf table.now pass.new × IsSamePass pass.old pass.new }
    ensures written { Writes (knows pass.old) (knows pass.new) plan.now }
{
    for image in plan {
        table.write_row(pass, image);
    }
}

impl<'a> Locked<'a> {
    /// Makes an event with this plan, stores the plan's images, and gives all rows back. `change` is the number of used rows after
    /// the event less that before it. The answer is the pass, which holds no row, and the event's place.
    ///
    /// It takes no memory and is never refused.
    pub fn finish(self, plan: &[RowImage], event: &Event, change: i64) -> (RowPass, u64)
        requires fresh { (knows self.pass).fresh ≡ true }
        requires held { AllHeld (knows self.pass).held plan.now }
        requires lawful { IsCommit (knows self.pass).plan (knows self.pass) event.now plan.now change }
        requires locked { IsLockedWith (knows self.pass) self.tree self.asked self.held self.part.rows.items self.part.hangs.items
            (pool_rows (knows self.pass).plan.trees self.pool) }
        ensures of { IsPassOf self.entry.table.now result.0 × IsSamePass self.entry.pass result.0 }
        ensures made { (u : View) × Commits (knows self.entry.pass) u plan.now event.now result.1 × OnlyHeld u (knows result.0) }
        ensures none { HoldsNone (knows result.0) }
    {
        let Locked {
            table,
            pass,
            tree: _,
            spins: _,
            asked: _,
            held,
            part,
            pool,
        } = self;
        let mut pass = pass;
        let place = table.commit(&mut pass, plan, event, change);
        write_all(table, &mut pass, plan);
        put_held(table, &mut pass, pool, held, part.rows);
        (pass, place)
    }

    /// Lets the images of a plan count that shows the same pairs and modes, stores them, and gives all rows back. The answer is the
    /// pass, which holds no row, and the place of the next event.
    ///
    /// It takes no memory and is never refused.
    pub fn settle(self, plan: &[RowImage]) -> (RowPass, u64)
        requires held { AllHeld (knows self.pass).held plan.now }
        requires lawful { IsSettle (knows self.pass).plan (knows self.pass) plan.now }
        requires locked { IsLockedWith (knows self.pass) self.tree self.asked self.held self.part.rows.items self.part.hangs.items
            (pool_rows (knows self.pass).plan.trees self.pool) }
        ensures of { IsPassOf self.entry.table.now result.0 × IsSamePass self.entry.pass result.0 }
        ensures settled { (u : View) × Settles (knows self.entry.pass) u plan.now result.1 × OnlyHeld u (knows result.0) }
        ensures none { HoldsNone (knows result.0) }
    {
        let Locked {
            table,
            pass,
            tree: _,
            spins: _,
            asked: _,
            held,
            part,
            pool,
        } = self;
        let mut pass = pass;
        let place = table.settle(&mut pass, plan);
        write_all(table, &mut pass, plan);
        put_held(table, &mut pass, pool, held, part.rows);
        (pass, place)
    }
}
