//! Laws of those that wait, each as the contract of a function that does nothing.
ghost use Rattle.std.specs.Prelude.{◌≡◌, List, Some, false};
ghost use Rattle.lt_ranges.specs.Numbers.{ascending};
ghost use Rattle.lt_requests.specs.declared.wish.Wish.{Wish};
ghost use Rattle.lt_requests.specs.Laws.{StartsHaveAnswers, SearchesFindCircles};
ghost use Rattle.lt_requests.specs.Registered.{Ascend, txns_of, is_registered, wish_of, with_wish, without};

/// Registered wishes stand by ascending transaction, each once, and stay so where one that was not there is put in. That
/// one is found then, and taken out again it leaves the others.
pub fn registered_wishes()
    ensures ascend { (wishes : List Wish) → Ascend wishes → ascending (txns_of wishes) ≡ txns_of wishes }
    ensures more { (wish : Wish) (wishes : List Wish) → is_registered wish.txn wishes ≡ false → Ascend wishes
        → Ascend (with_wish wish wishes) }
    ensures found { (wish : Wish) (wishes : List Wish) → is_registered wish.txn wishes ≡ false
        → wish_of wish.txn (with_wish wish wishes) ≡ Some wish }
    ensures left { (wish : Wish) (wishes : List Wish) → is_registered wish.txn wishes ≡ false
        → without wish.txn (with_wish wish wishes) ≡ wishes }
{}

/// With all the rights, and with places for the joins of all trees, the ask and a question for each that waits, a start or a
/// retry has its answer, unless memory is short or the ask is out of locks: it is never busy, and the history is not full.
pub fn starts_have_answers()
    ensures { StartsHaveAnswers }
{}

/// A search misses no circle. Where an ask is held and the search behind it finds no closed walk, no way of those that wait,
/// each for something that the next one holds, leads from the transaction back to it.
#[tactic(auto, using(crate::proofs::CircleLaws::no_circle))]
pub fn searches_find_circles()
    ensures { SearchesFindCircles }
{}
