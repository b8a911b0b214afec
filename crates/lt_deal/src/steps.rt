//! The single steps: each is one atomic step on the ticket word.
ghost use Rattle.std.specs.Prelude.{◌≡◌, ◌+◌, ◌<◌, ◌≤◌, ◌^◌, [], ◌∷◌, length};
ghost use mathlib.Core.Option.{none};
ghost use Rattle.atomic_table.specs.Table.{step};
ghost use Rattle.lt_deal.specs.Seats.{view, Fits};
ghost use Rattle.std.specs.Prelude.{Some};
ghost use Rattle.lt_deal.specs.Rule.{Gave, times, maker, further, gathered};
ghost use Rattle.lt_deal.specs.Plays.{draws, opens, stocks, gives_back};
ghost use Rattle.lt_deal.specs.Fresh.{IsFresh};

use crate::plays::{Draws, Gathers, Gives, Opens, Parts, Stocks};
use crate::rule::{Place, Words};

/// Draws a ticket. An index below the number of items comes with the item's slot.
pub(crate) fn ticket<T>(words: &Words<T>, place: &mut Place<T>) -> u64
    requires of { Fits words.now.table_id × (place.old.table_id ≡ words.now.table_id) }
    requires bare { (place.old.me.1 ≡ []) × ((view place.old).parts ≡ 1) × ((view place.old).nones ≡ 0) }
    requires few { length (view place.old).stock + words.now.key + 1 < 2 ^ 64 }
    ensures of { (place.new.table_id ≡ place.old.table_id) × (place.new.id ≡ place.old.id) }
    ensures told { draws (step words.now.table_id.slots 0 1 0 none) place.old.me result place.new.me }
{
    words.fetch_add::<Draws>(place, 0, 1)
}

/// Gives back the item in the slot that the seat holds.
pub(crate) fn give<T>(words: &Words<T>, place: &mut Place<T>, index: usize)
    requires of { Fits words.now.table_id × (place.old.table_id ≡ words.now.table_id) }
    requires has { (x : T) × (place.old.me.1 ≡ (index, Some x) ∷ []) }
    requires drew { (0 < (view place.old).parts) × (index < length (view place.old).stock) × (0 < times index (view place.old).drew) }
    requires slot { index < words.now.table_id.slots }
    requires out { (y : T) → Gave (view place.old).gave index y → ⊥ }
    ensures of { (place.new.table_id ≡ place.old.table_id) × (place.new.id ≡ place.old.id) }
    ensures told { gives_back (step words.now.table_id.slots 0 0 0 none) place.old.me index place.new.me }
{
    words.load::<Gives>(place, 0);
}

/// Takes the slot behind the stock.
pub(crate) fn open<T>(words: &Words<T>, place: &mut Place<T>)
    requires of { Fits words.now.table_id × (place.old.table_id ≡ words.now.table_id) }
    requires bare { (place.old.me.1 ≡ []) × ((view place.old).filling ≡ 0) }
    requires fresh { IsFresh words.now.key (view place.old) }
    requires slot { length (view place.old).stock < words.now.table_id.slots }
    ensures of { (place.new.table_id ≡ place.old.table_id) × (place.new.id ≡ place.old.id) }
    ensures told { opens (step words.now.table_id.slots 0 0 0 none) place.old.me 0 place.new.me }
{
    words.load::<Opens>(place, 0);
}

/// Puts the slot behind the stock back, filled.
pub(crate) fn stock<T>(words: &Words<T>, place: &mut Place<T>)
    requires of { Fits words.now.table_id × (place.old.table_id ≡ words.now.table_id) }
    requires has { (x : T) × (place.old.me.1 ≡ (length (view place.old).stock, Some x) ∷ []) }
    requires filling { (view place.old).filling ≡ 1 }
    requires fresh { IsFresh words.now.key (view place.old) }
    requires slot { length (view place.old).stock < words.now.table_id.slots }
    ensures of { (place.new.table_id ≡ place.old.table_id) × (place.new.id ≡ place.old.id) }
    ensures told { stocks (step words.now.table_id.slots 0 0 0 none) place.old.me 0 place.new.me }
{
    words.load::<Stocks>(place, 0);
}

/// Makes a further seat: it keeps one part, and the answer has the others.
pub(crate) fn part<T>(words: &Words<T>, place: &mut Place<T>) -> Place<T>
    requires of { Fits words.now.table_id × (place.old.table_id ≡ words.now.table_id) }
    requires more { (1 < (view place.old).parts) × ((view place.old).nones ≡ 0) }
    ensures left { (place.new.table_id ≡ place.old.table_id) × (place.new.me ≡ (maker (view place.old), place.old.me.1)) }
    ensures right { (result.table_id ≡ place.old.table_id) × (result.me ≡ (further (view place.old), [])) }
{
    words.split_seat::<Parts>(place)
}

/// Takes in what another seat knows.
pub(crate) fn gather<T>(words: &Words<T>, place: &mut Place<T>, other: Place<T>)
    requires of { Fits words.now.table_id × (place.old.table_id ≡ words.now.table_id) }
    requires other { (other.table_id ≡ words.now.table_id) × (other.me.1 ≡ []) }
    requires some { (0 < (view place.old).parts) × (0 < (view other).parts) × ((view other).filling ≡ 0) }
    ensures of { (place.new.table_id ≡ place.old.table_id) × (place.new.me ≡ (gathered (view place.old) (view other), place.old.me.1)) }
{
    words.join_seat::<Gathers>(place, other);
}
