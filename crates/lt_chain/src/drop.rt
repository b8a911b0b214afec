//! A buffer given up whole.
ghost use Rattle.std.specs.Prelude.{◌≡◌, ◌<◌, ◌∷◌, true, ◌+ℤ◌, pos, IfOk, IfErr};
ghost use Rattle.lt_rows.specs.Handles.{knows, IsPassOf, IsSamePass};
ghost use Rattle.lt_tree.specs.States.{HoldsNone, OnlyHeld, OnlyRows, KeepsRows};
ghost use Rattle.lt_tree.specs.Puttings.{Backs};
ghost use Rattle.lt_chain.specs.Buffers.{IsMet, Makes};
ghost use Rattle.lt_chain.specs.Chains.{ShowsChain, HoldsChain, FreesAll};
ghost use Rattle.lt_chain.specs.Images.{HasImages, EndsWith, DropsChain};

use crate::images::Images;
use crate::put::give_back_three;
use lt_rows::{RowPass, RowTable, Take};
use lt_seq::{Event, Fault};
use lt_tree::try_take;

/// Gives these rows back, which are all that are held.
fn put_rows(table: &RowTable, pass: &mut RowPass, rows: &[u32])
    requires of { IsPassOf table.now pass.old }
    requires backs { Backs (knows pass.old) rows.now }
    ensures of { IsPassOf table.now pass.new × IsSamePass pass.old pass.new }
    ensures only { OnlyHeld (knows pass.old) (knows pass.new) }
    ensures none { HoldsNone (knows pass.new) }
{
    let mut at = rows.len();
    while at > 0 {
        at -= 1;
        table.put(pass, rows[at]);
    }
}

/// Takes the pool's anchor, and loads it with the tree's anchor and the chain's last row. After a refusal no row is held.
fn take_ends(
    table: &RowTable,
    pass: &mut RowPass,
    tree: u32,
    rows: &[u32],
    spins: u32,
) -> Result<Images, Fault>
    requires of { IsPassOf table.now pass.old }
    requires right { 0 < pass.old.rights }
    requires tree { tree < table.now.plan.trees }
    requires chain { HoldsChain (knows pass.old) tree rows.now }
    ensures of { IsPassOf table.now pass.new × IsSamePass pass.old pass.new }
    ensures only { OnlyRows (knows pass.old) (knows pass.new) }
    ensures kept { IfOk result (λ _. KeepsRows (knows pass.old) (knows pass.new)) }
    ensures held { IfOk result (λ i. HasImages table.now.plan (knows pass.new) tree i) }
    ensures backs { IfOk result (λ _. Backs (knows pass.new) (table.now.plan.trees ∷ tree ∷ rows.now)) }
    ensures last { IfOk result (λ i. EndsWith rows.now i) }
    ensures none { IfErr result (λ _. HoldsNone (knows pass.new)) }
    ensures met { IfErr result (λ fault. IsMet (knows pass.old) (knows pass.new) fault) }
{
    let anchor = table.load_row(pass, tree);
    let pool_row = table.plan().trees;
    match try_take(table, pass, pool_row, spins) {
        Take::Taken => {}
        Take::HeldBy(holder) => {
            table.put(pass, tree);
            put_rows(table, pass, rows);
            return Err(Fault::Busy {
                row: pool_row,
                holder,
            });
        }
    }
    let pool = table.load_row(pass, pool_row);
    let row = table.load_row(pass, rows[rows.len() - 1]);
    Ok(Images { anchor, pool, row })
}

/// The images that leave the tree empty, and have the chain as it stands at the front of the pool's.
fn dropped(loaded: &Images) -> Images
    ensures { DropsChain loaded.now result }
{
    let mut anchor = loaded.anchor;
    anchor.words[0] = 0;
    anchor.words[17] = 0;
    anchor.words[19] = 100;
    anchor.words[20] = 0;
    let mut pool = loaded.pool;
    pool.words[17] = loaded.anchor.words[17];
    let mut row = loaded.row;
    row.words[17] = loaded.pool.words[17];
    Images { anchor, pool, row }
}

/// The change of the used rows that makes them fewer by so many.
fn fewer(rows: usize) -> i64
    requires { rows < 9223372036854775808 }
    ensures { result +ℤ pos rows ≡ pos 0 }
{
    -(rows as i64)
}

/// Commits the images, and gives all rows back.
fn commit_drop(
    table: &RowTable,
    pass: &mut RowPass,
    loaded: &Images,
    images: &Images,
    event: &Event,
    _tree: u32,
    rows: &[u32],
) -> u64
    requires of { IsPassOf table.now pass.old }
    requires fresh { (0 < pass.old.rights) × ((knows pass.old).fresh ≡ true) }
    requires tree { _tree < table.now.plan.trees }
    requires held { HasImages table.now.plan (knows pass.old) _tree loaded.now }
    requires backs { Backs (knows pass.old) (table.now.plan.trees ∷ _tree ∷ rows.now) }
    requires last { EndsWith rows.now loaded.now }
    requires buffer { ShowsChain (knows pass.old) _tree rows.now }
    requires event { FreesAll pass.old.number _tree (knows pass.old) rows.now event.now }
    requires drops { DropsChain loaded.now images.now }
    ensures of { IsPassOf table.now pass.new × IsSamePass pass.old pass.new }
    ensures made { Makes (knows pass.old) (knows pass.new) event.now result }
{
    let plan = [images.anchor, images.pool, images.row];
    let place = table.commit(pass, &plan, event, fewer(rows.len()));
    give_back_three(table, pass, images);
    put_rows(table, pass, &rows[..rows.len() - 1]);
    place
}

/// Frees the whole of a buffer, whose rows `to_pairs` has taken and listed: the chain goes as it stands to the front of the
/// pool's. The answer is the event's place. The pass holds no row afterwards.
///
/// # Errors
/// `Busy` alone, where the pool's anchor was met held by another pass.
pub fn drop_all(
    table: &RowTable,
    pass: &mut RowPass,
    tree: u32,
    event: &Event,
    rows: &[u32],
    spins: u32,
) -> Result<u64, Fault>
    requires of { IsPassOf table.now pass.old }
    requires fresh { (0 < pass.old.rights) × ((knows pass.old).fresh ≡ true) }
    requires tree { tree < table.now.plan.trees }
    requires chain { HoldsChain (knows pass.old) tree rows.now }
    requires event { FreesAll pass.old.number tree (knows pass.old) rows.now event.now }
    ensures of { IsPassOf table.now pass.new × IsSamePass pass.old pass.new }
    ensures made { IfOk result (λ place. Makes (knows pass.old) (knows pass.new) event.now place) }
    ensures only { IfErr result (λ _. OnlyRows (knows pass.old) (knows pass.new)) }
    ensures none { IfErr result (λ _. HoldsNone (knows pass.new)) }
    ensures met { IfErr result (λ fault. IsMet (knows pass.old) (knows pass.new) fault) }
{
    match take_ends(table, pass, tree, rows, spins) {
        Ok(loaded) => {
            let images = dropped(&loaded);
            Ok(commit_drop(table, pass, &loaded, &images, event, tree, rows))
        }
        Err(fault) => Err(fault),
    }
}
