//! The rows in use at which asks make joins.
ghost use Rattle.std.specs.Prelude.{◌≡◌};
ghost use Rattle.lt_rows.specs.Plan.{setting_of};
ghost use Rattle.lt_seq.specs.Yard.{bar_for};

use lt_rows::RowPlan;

/// The rows in use at which an ask makes joins, and behind them is out of locks.
pub(crate) fn bar_for(plan: &RowPlan, big: bool) -> u64
    ensures { result ≡ bar_for (setting_of plan.now) big }
{
    if big {
        plan.limit - plan.limit / 2
    } else {
        plan.limit
    }
}
