//! What the asks of `lock` lines come to.
ghost use Rattle.std.specs.Prelude.{OnOk};
ghost use Rattle.lt_runner.specs.Board.{IsOn, IsAnswer, IsTaken};

use crate::board::Board;
use lt_history::Outcome;
use lt_requests::Started;
use lt_seq::Fault;
use std::alloc::AllocError;

impl Board {
    /// The ask at the next line of a transaction, a `lock` line, came to this.
    pub(crate) fn take_answer(
        &mut self,
        txn: u64,
        started: Result<Started, Fault>,
    ) -> Result<(), AllocError>
        requires on { IsOn txn self.old }
        requires lock { IsAnswer txn self.old started }
        ensures { OnOk result (IsTaken txn started self.old self.new) }
    {
        let place = self.place_of(txn);
        match started {
            Ok(Started::Granted { buffered, .. }) => self.turns[place].granted(buffered),
            Ok(Started::Waits { .. }) => {
                self.turns[place].held(true);
                Ok(())
            }
            Ok(Started::Deadlock(walk)) => self.turns[place].end_as(Outcome::Deadlock(walk)),
            Err(Fault::OutOfLocks { place: at, used }) => {
                self.registry.forget(txn);
                self.turns[place].end_as(Outcome::OutOfLocks { place: at, used })
            }
            Err(Fault::OutOfMemory) => Err(AllocError),
            Err(Fault::Busy { .. }) => unreachable!(),
            Err(Fault::HistoryFull { .. }) => unreachable!(),
        }
    }
}
