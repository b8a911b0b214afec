//! What each kind of step on the words tells its seat.
use crate::view::View;
use atomic_table::{Join, Play, Split};
use std::marker::{Brand, PhantomData};

/// A try to take a row.
pub struct Takes;

impl Play<(), View> for Takes {
    ghost use Rattle.lt_rows.specs.Plays.{takes};

    ghost then = { takes };
}

/// A load of a word of a row that the seat holds.
pub struct Loads;

impl Play<(), View> for Loads {
    ghost use Rattle.lt_rows.specs.Plays.{loads};
    ghost use Rattle.lt_rows.specs.Woods.{woods};

    ghost then = { loads woods };
}

/// A store to a word of a row that the seat holds.
pub struct Stores;

impl Play<(), View> for Stores {
    ghost use Rattle.lt_rows.specs.Plays.{stores};

    ghost then = { stores };
}

/// A row that is given back.
pub struct Puts;

impl Play<(), View> for Puts {
    ghost use Rattle.lt_rows.specs.Plays.{puts};

    ghost then = { puts };
}

/// A load of the history word.
pub struct Looks;

impl Play<(), View> for Looks {
    ghost use Rattle.lt_rows.specs.Plays.{looks};
    ghost use Rattle.lt_rows.specs.Woods.{woods};

    ghost then = { looks woods };
}

/// What a commit does: the event and the plan.
pub trait Deal {
    ghost use Rattle.std.specs.Prelude.{List};
    ghost use Rattle.lt_seq.specs.declared.event.Event.{Event};
    ghost use Rattle.lt_rows.specs.declared.image.RowImage.{RowImage};

    ghost event: { Event };

    ghost plan: { List RowImage };
}

impl Deal for Brand {
    ghost use Rattle.std.specs.Prelude.{[]};
    ghost use Rattle.lt_rows.specs.Plays.{no_event};

    ghost event = { no_event };

    ghost plan = { [] };
}

/// A commit: the one step that makes an event.
pub struct Commits<C> {
    of: PhantomData<C>,
}

impl<C: Deal> Play<(), View> for Commits<C> {
    ghost use Rattle.lt_rows.specs.Plays.{commits};
    ghost use Rattle.lt_rows.specs.Woods.{woods};

    ghost then = { commits woods C.event C.plan };
}

/// What a settle does: the plan, and the gaps that the rows have then.
pub trait Change {
    ghost use Rattle.std.specs.Prelude.{List, Option};
    ghost use Rattle.lt_rows.specs.declared.view.SeenGap.{SeenGap};
    ghost use Rattle.lt_rows.specs.declared.image.RowImage.{RowImage};

    ghost plan: { List RowImage };

    ghost gaps: { List (Option SeenGap) };
}

impl Change for Brand {
    ghost use Rattle.std.specs.Prelude.{[]};

    ghost plan = { [] };

    ghost gaps = { [] };
}

/// A settle: a load of the history word with a plan of the same pairs and modes.
pub struct Settles<C> {
    of: PhantomData<C>,
}

impl<C: Change> Play<(), View> for Settles<C> {
    ghost use Rattle.lt_rows.specs.Plays.{settles};
    ghost use Rattle.lt_rows.specs.Woods.{woods};

    ghost then = { settles woods C.plan C.gaps };
}

/// A load that tells how many rights there are at most, after a seat was joined.
pub struct Counts;

impl Play<(), View> for Counts {
    ghost use Rattle.lt_rows.specs.Plays.{counts};

    ghost then = { counts };
}

/// How many rights a note takes.
pub trait Cut {
    ghost use Rattle.std.specs.Prelude.{ℕ};

    ghost count: { ℕ };
}

impl Cut for Brand {
    ghost count = { 0 };
}

/// A seat that hands some of its rights to a note.
pub struct Shares<C> {
    of: PhantomData<C>,
}

impl<C: Cut> Split<View> for Shares<C> {
    ghost use Rattle.lt_rows.specs.Views.{sharer, note};

    ghost left = { λ v. sharer C.count v };

    ghost right = { λ v. note v.plan C.count v.front };
}

/// A seat that takes a note in.
pub struct Learns;

impl Join<View> for Learns {
    ghost use Rattle.lt_rows.specs.Views.{learner, note, no_plan};
    ghost use Rattle.std.specs.Prelude.{[]};

    ghost both = { learner };

    ghost spent = { note no_plan 0 [] };
}

/// A seat that keeps its first mark, and one that has the others.
pub struct Makes;

impl Split<View> for Makes {
    ghost use Rattle.lt_rows.specs.Views.{maker, further};

    ghost left = { maker };

    ghost right = { further };
}
