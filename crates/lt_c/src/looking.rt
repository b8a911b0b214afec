//! Looks of a pass before its calls.
ghost use Rattle.std.specs.Prelude.{◌≡◌, ◌<◌, true, IfOk, IfErr, OnOk};
ghost use Rattle.lt_seq.specs.Yard.{places_end};
ghost use Rattle.lt_rows.specs.Handles.{Looks};
ghost use Rattle.lt_locktree.specs.Calls.{sees, IsOfTable, StaysOf};
ghost use Rattle.lt_c.specs.Behind.{Faults};

use lt_locktree::{Locktree, TreePass};
use lt_seq::{Fault, Look, PLACES_END};

/// Looks, and answers what it saw where there is a place for an event.
pub(crate) fn look_for_place(table: &Locktree, pass: &mut TreePass) -> Result<Look, Fault>
    requires of { IsOfTable table.now pass.old }
    ensures of { StaysOf table.now pass.old pass.new }
    ensures looked { IfOk result (λ look. Looks (sees pass.old) (sees pass.new) look × (look.place < places_end)) }
    ensures fresh { OnOk result ((sees pass.new).fresh ≡ true) }
    ensures licensed { IfOk result (λ look. look.used < table.now.rows.plan.limit → (sees pass.new).licensed ≡ true) }
    ensures full { IfErr result (Faults (sees pass.old) (sees pass.new)) }
{
    let look = table.look(pass);
    if look.place >= PLACES_END {
        return Err(Fault::HistoryFull { place: look.place });
    }
    Ok(look)
}
