//! Laws of runs by threads.
ghost use Rattle.lt_live.specs.Live.{PlaysOnAreHere, WorkedIsLive};
ghost use Rattle.lt_live.specs.RunLive.{LiveLeavesNothing, ToldLive};

/// A play of a transaction by one pass, with searches of the transaction alone, brings it on whatever others search.
pub fn plays_on_are_here()
    ensures { PlaysOnAreHere }
{}

/// Where all workers of a table have played their transactions to the ends, what they did is one legal history with the play of each
/// transaction of the trace, once and in its order, and no event of another.
pub fn worked_is_live()
    ensures { WorkedIsLive }
{}

/// Where each transaction of a trace was played to its end in one legal history, and no other has an event, no tree has a pair.
pub fn live_leaves_nothing()
    ensures { LiveLeavesNothing }
{}

/// The passes' receipts by place, and how the transactions ended, by their numbers, tell exactly such a run.
pub fn told_live()
    ensures { ToldLive }
{}
