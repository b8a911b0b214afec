//! The passes of a fresh table.
ghost use Rattle.std.specs.Prelude.{◌≡◌, map, IfOk};
ghost use Rattle.std.specs.List.{AllByRecursion};
ghost use Rattle.lt_seq.specs.Passes.{opening_passes};
ghost use Rattle.lt_rows.specs.Openings.{AreItsPasses};
ghost use Rattle.lt_manager.specs.Views.{view_of, IsPassOfTable};

use crate::manager_pass::ManagerPass;
use lt_locktree::{Locktree, TreePass};
use std::alloc::{AllocError, Global};

/// The passes of a fresh table, with no receipts and no notes.
pub(crate) fn bare_passes(
    alloc: Global,
    passes: Vec<TreePass>,
    _table: &Locktree,
) -> Result<Vec<ManagerPass>, AllocError>
    requires { AreItsPasses _table.now.rows (map (λ p. p.pass) passes.items) }
    ensures of { IfOk result (λ made. AllByRecursion (IsPassOfTable _table.now) made.items) }
    ensures passes { IfOk result (λ made. map view_of made.items ≡ opening_passes _table.now.rows.plan.passes) }
{
    let mut made = Vec::new(alloc);
    for pass in passes {
        made.push(ManagerPass {
            pass,
            mine: Vec::new(alloc),
            notes: Vec::new(alloc),
        })?;
    }
    Ok(made)
}
