//! Those who say where joins stop.
ghost use Rattle.std.specs.Prelude.{◌≡◌, ◌∷◌, ◌++◌, ◌&&◌, [], List, not, IfOk, OnOk, OnErr};
ghost use Rattle.std.specs.List.{list_any};
ghost use Rattle.lt_ranges.specs.declared.key.Key.{Key};
ghost use Rattle.lt_ranges.specs.Key.{key_le};

use lt_ranges::Key;
use std::alloc::AllocError;

/// Marks among the keys that no join crosses. A table keeps it as long as it lives, and its passes ask it side by side.
pub trait Barrier: Send + Sync + Drop {
    /// Its marks, in the order in which they were added.
    ghost marks: { Self → List Key };

    /// Whether a mark keeps a range that ends at `left` apart from one that begins at `right`: one that is greater than
    /// `left` and at most `right`. So a mark begins what lies behind it, and does not end what lies before.
    fn cuts(&self, left: &Key, right: &Key) -> bool
        ensures { result ≡ list_any (λ mark. not (key_le mark left.now) && key_le mark right.now) (marks self.now) };

    /// Adds a mark behind the others. The only error is want of memory, and then the marks stay as they were.
    fn add(&mut self, mark: &Key) -> Result<(), AllocError>
        ensures added { OnOk result (marks self.new ≡ marks self.old ++ mark.now ∷ []) }
        ensures left { OnErr result (marks self.new ≡ marks self.old) };

    /// The marks in the order in which they were added. The only error is want of memory.
    fn list(&self) -> Result<Vec<Key>, AllocError>
        ensures { IfOk result (λ list. list.items ≡ marks self.now) };
}
