//! What a transaction was granted in a tree.
ghost use Rattle.std.specs.Prelude.{◌≡◌, ◌≤◌, [], ◌∷◌, ◌++◌, true, length, replicate, IfOk, OnOk, OnErr};
ghost use Rattle.lt_runner.specs.Turn.{nothing_recorded, releases_by, releases_in, releases_from};

use crate::release::Release;
use lt_range_buffer::RangeBuffer;
use lt_ranges::KeyRange;
use std::alloc::{AllocError, Global};
use std::collections::VecDeque;
use std::marker::Model;

/// What a transaction was granted in a tree.
#[derive(Debug, Drop)]
pub(crate) struct Recorded {
    ranges: RangeBuffer,
    /// Whether the last grant went into a buffer, which one free gives back whole.
    buffered: bool,
}

impl Model for Recorded {
    ghost use Rattle.lt_runner.specs.TurnView.{Recorded as Record};

    ghost Value = { Record };

    ghost view = { λ r. record { ranges = r.ranges; buffered = r.buffered } };
}

impl Recorded {
    pub(crate) fn new(alloc: Global) -> Recorded
        ensures { result ≡ nothing_recorded }
    {
        Recorded {
            ranges: RangeBuffer::new(alloc),
            buffered: false,
        }
    }

    /// Puts a range behind those that were granted. Where memory is short nothing has changed.
    pub(crate) fn add(&mut self, range: &KeyRange, buffered: bool) -> Result<(), AllocError>
        ensures added { OnOk result (self.new ≡ record { ranges = self.old.ranges ++ range.now ∷ []; buffered = buffered }) }
        ensures same { OnErr result (self.new ≡ self.old) }
    {
        self.ranges.append(range)?;
        self.buffered = buffered;
        Ok(())
    }

    /// Puts the frees of this tree behind others.
    fn add_releases(&self, tree: u32, releases: &mut VecDeque<Release>) -> Result<(), AllocError>
        ensures { OnOk result (releases.new.items ≡ releases.old.items ++ releases_in tree self.now) }
    {
        if self.buffered {
            releases.push_back(Release {
                tree,
                range: KeyRange::whole(),
                first: true,
            })?;
            return Ok(());
        }
        add_ranges(tree, &self.ranges, releases)
    }
}

/// Puts one free for each range behind others, the first one marked.
fn add_ranges(
    tree: u32,
    ranges: &RangeBuffer,
    releases: &mut VecDeque<Release>,
) -> Result<(), AllocError>
    ensures { OnOk result (releases.new.items ≡ releases.old.items ++ releases_by tree true ranges.now) }
{
    let mut first = true;
    for range in ranges.iter() {
        releases.push_back(Release { tree, range, first })?;
        first = false;
    }
    Ok(())
}

/// Nothing recorded in any tree.
pub(crate) fn nothing_recorded(alloc: Global, trees: u32) -> Result<Vec<Recorded>, AllocError>
    ensures { IfOk result (λ recorded. recorded.items ≡ replicate trees nothing_recorded) }
{
    let mut recorded = Vec::new(alloc);
    for _tree in 0..trees {
        recorded.push(Recorded::new(alloc))?;
    }
    Ok(recorded)
}

/// The frees of all trees, in ascending order.
pub(crate) fn releases_of(
    alloc: Global,
    recorded: &[Recorded],
) -> Result<VecDeque<Release>, AllocError>
    requires { length recorded.now ≤ 16 }
    ensures { IfOk result (λ releases. releases.items ≡ releases_from 0 recorded.now) }
{
    let mut releases = VecDeque::new(alloc);
    for (tree, in_tree) in recorded.iter().enumerate() {
        in_tree.add_releases(tree as u32, &mut releases)?;
    }
    Ok(releases)
}
