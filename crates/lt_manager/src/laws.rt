//! Laws of what passes see.
ghost use Rattle.lt_manager.specs.Laws.{DeedHappens, DeedIsLeft, StaysSound};

/// A pass stays sound with what others made.
pub fn passes_stay_sound()
    ensures { StaysSound }
{}

/// What a deed of the table comes to behind a look is what a yard's call answers: its event at once, or the cause why there is none.
pub fn deeds_are_answers()
    ensures happens { DeedHappens }
    ensures left { DeedIsLeft }
{}
