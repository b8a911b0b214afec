//! A tree's anchor, taken.
ghost use Rattle.std.specs.Prelude.{◌≡◌, ◌<◌, IfOk, IfErr};
ghost use Rattle.lt_rows.specs.Nodes.{node_of, mode_of};
ghost use Rattle.lt_rows.specs.Handles.{knows, IsPassOf, IsSamePass};
ghost use Rattle.lt_rows.specs.Teaching.{Teaches};
ghost use Rattle.lt_tree.specs.States.{HoldsNone, HoldsOnly, OnlyRows, IsPrepared, IsRefused, IsBusyAt};
ghost use Rattle.lt_tree.specs.Anchors.{ShowsMode};

use crate::seize::seize;
use lt_rows::{RowImage, RowPass, RowTable, Take};
use lt_seq::Fault;

/// A search that holds a tree's anchor and no other row.
#[derive(Drop)]
pub struct Prepared<'a> {
    pub(crate) table: &'a RowTable,
    pub(crate) pass: RowPass,
    pub(crate) tree: u32,
    pub(crate) spins: u32,
    pub(crate) image: RowImage,
    ghost of: { IsPassOf table.now pass },
    ghost taught: { ∥ Teaches (knows pass) ∥₁ },
    ghost prepared: { (0 < pass.rights) × (tree < table.now.plan.trees) × IsPrepared (knows pass) tree image },
}

/// What a tree's anchor shows.
#[derive(Clone, Copy, Debug, PartialEq, Eq)]
pub struct Anchor {
    /// The link to the tree's top row, or to the first row of its buffer: 0 for none, and else a row's number plus 1.
    pub top: u32,
    /// The transaction of the buffer, or 0 in Tree mode.
    pub buffer_txn: u64,
    /// The number of the buffer's rows.
    pub buffered: u64,
    /// The score in Tree mode.
    pub score: u64,
}

/// Takes the tree's anchor, which is tried at most 1 + spins times.
///
/// # Errors
/// `Busy` alone, with the anchor and the pass that was found to hold it last. The pass that is handed back holds no row.
pub fn try_prepare<'a>(
    table: &'a RowTable,
    pass: RowPass,
    tree: u32,
    spins: u32,
) -> Result<Prepared<'a>, (RowPass, Fault)>
    requires of { IsPassOf table.now pass }
    requires right { 0 < pass.rights }
    requires tree { tree < table.now.plan.trees }
    requires none { HoldsNone (knows pass) }
    ensures ready { IfOk result (λ p. IsSamePass pass p.pass × OnlyRows (knows pass) (knows p.pass)) }
    ensures same { IfOk result (λ p. (p.table.now ≡ table.now) × (p.tree ≡ tree) × (p.spins ≡ spins)) }
    ensures handed { IfErr result (λ r. IsPassOf table.now r.0 × IsSamePass pass r.0 × HoldsNone (knows r.0)) }
    ensures only { IfErr result (λ r. OnlyRows (knows pass) (knows r.0)) }
    ensures refused { IfErr result (λ r. IsBusyAt tree r.1 × IsRefused (knows pass) (knows r.0) r.1) }
{
    let mut pass = pass;
    match seize(table, &mut pass, tree, spins) {
        Take::Taken => {
            let image = table.load_row(&mut pass, tree);
            Ok(Prepared {
                table,
                pass,
                tree,
                spins,
                image,
            })
        }
        Take::HeldBy(holder) => Err((pass, Fault::Busy { row: tree, holder })),
    }
}

impl<'a> Prepared<'a> {
    /// What the anchor shows.
    pub fn anchor(&self) -> Anchor
        ensures top { result.top ≡ (node_of self.now.image.words).left }
        ensures mode { ShowsMode (mode_of self.now.image.words) result }
    {
        Anchor {
            top: self.image.left() as u32,
            buffer_txn: self.image.owner(),
            buffered: self.image.words[20],
            score: self.image.words[19],
        }
    }

    /// The pass, which holds the anchor and no other row.
    pub fn into_pass(self) -> RowPass
        ensures of { IsPassOf self.entry.table.now result × IsSamePass self.entry.pass result }
        ensures same { knows result ≡ knows self.entry.pass }
        ensures only { IsPrepared (knows result) self.entry.tree self.entry.image }
    {
        self.pass
    }

    /// The pass, which holds no row.
    pub fn cancel(self) -> RowPass
        ensures of { IsPassOf self.entry.table.now result × IsSamePass self.entry.pass result }
        ensures only { OnlyRows (knows self.entry.pass) (knows result) }
        ensures none { HoldsNone (knows result) }
    {
        let Prepared {
            table,
            pass,
            tree,
            spins: _,
            image: _,
        } = self;
        let mut pass = pass;
        table.put(&mut pass, tree);
        pass
    }
}
