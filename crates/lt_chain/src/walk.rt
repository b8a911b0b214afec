//! The rows of a chain, taken one after another.
ghost use Rattle.std.specs.Prelude.{◌≡◌, ◌<◌, ◌∷◌, [], ℕ, IfOk, IfErr};
ghost use Rattle.lt_rows.specs.Handles.{knows, IsPassOf, IsSamePass};
ghost use Rattle.lt_tree.specs.States.{OnlyRows, KeepsRows, IsRefused};
ghost use Rattle.lt_tree.specs.Puttings.{Backs};
ghost use Rattle.lt_chain.specs.Buffers.{HoldsAnchor};
ghost use Rattle.lt_chain.specs.Chains.{ShowsBuffer, Walks};

use lt_rows::{RowPass, RowTable, Take};
use lt_seq::Fault;
use lt_tree::try_take;

/// Takes the rows of a buffer's chain, from its first to its last, and lists them. After a refusal the listed ones are held.
pub(crate) fn take_chain(
    table: &RowTable,
    pass: &mut RowPass,
    tree: u32,
    rows: &mut Vec<u32>,
    spins: u32,
) -> Result<(), Fault>
    requires of { IsPassOf table.now pass.old }
    requires right { 0 < pass.old.rights }
    requires tree { tree < table.now.plan.trees }
    requires anchor { HoldsAnchor (knows pass.old) tree }
    requires buffer { ShowsBuffer (knows pass.old) tree }
    requires empty { rows.old.items ≡ [] }
    ensures of { IsPassOf table.now pass.new × IsSamePass pass.old pass.new }
    ensures only { OnlyRows (knows pass.old) (knows pass.new) }
    ensures backs { Backs (knows pass.new) (tree ∷ rows.new.items) }
    ensures kept { IfOk result (λ _. KeepsRows (knows pass.old) (knows pass.new)) }
    ensures walked { IfOk result (λ _. (owner : ℕ) × (count : ℕ) × Walks (knows pass.new) tree owner count rows.new.items 0) }
    ensures refused { IfErr result (λ fault. IsRefused (knows pass.old) (knows pass.new) fault) }
{
    let mut link = table.load_row(pass, tree).left();
    while link != 0 {
        let row = (link - 1) as u32;
        match try_take(table, pass, row, spins) {
            Take::Taken => {}
            Take::HeldBy(holder) => return Err(Fault::Busy { row, holder }),
        }
        if rows.push(row).is_err() {
            table.put(pass, row);
            return Err(Fault::OutOfMemory);
        }
        link = table.load_row(pass, row).left();
    }
    Ok(())
}
