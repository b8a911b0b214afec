//! A part that has all rows of its tree.
ghost use Rattle.std.specs.Prelude.{◌≡◌, ◌<◌, ℕ, length, slice_index, All, IfOk, IfErr, IfSome, IfNone};
ghost use Rattle.lt_rows.specs.Handles.{knows, IsSamePass};
ghost use Rattle.lt_tree.specs.Gathers.{IsLocked, IsClosed};
ghost use Rattle.lt_tree.specs.States.{OnlyRows, IsRefused};

use lt_seq::Fault;
use lt_tree::Locked;

// The index of the first link that leads to a row.
fn first_link(hangs: &[u32]) -> Option<usize>
    ensures some { IfSome result (λ at. (at < length hangs.now) × (0 < slice_index hangs.now at)) }
    ensures none { IfNone result (All (λ (h : ℕ). h ≡ 0) hangs.now) }
{
    hangs.iter().position(|link| *link != 0)
}

/// Takes rows into the part of a search, which stays closed, until nothing hangs below its rows.
///
/// # Errors
/// `Busy` only where a row was met held by another pass, which never comes to a pass with all the rights; or want of memory. The search
/// goes on with the part that it has then.
pub fn widen_whole<'a>(locked: &mut Locked<'a>) -> Result<(), Fault>
    requires locked { IsLocked (knows locked.old.pass) locked.old.tree locked.old.asked locked.old.held locked.old.part.rows.items
        locked.old.part.hangs.items }
    requires closed { IsClosed locked.old.asked locked.old.part.rows.items locked.old.part.hangs.items }
    ensures same { IsSamePass locked.old.pass locked.new.pass × OnlyRows (knows locked.old.pass) (knows locked.new.pass) }
    ensures kept { (locked.new.table ≡ locked.old.table) × (locked.new.tree ≡ locked.old.tree) × (locked.new.asked ≡ locked.old.asked)
        × (locked.new.held ≡ locked.old.held) × (locked.new.pool ≡ locked.old.pool) }
    ensures locked { IsLocked (knows locked.new.pass) locked.new.tree locked.new.asked locked.new.held locked.new.part.rows.items
        locked.new.part.hangs.items }
    ensures closed { IsClosed locked.new.asked locked.new.part.rows.items locked.new.part.hangs.items }
    ensures whole { IfOk result (λ _. All (λ (h : ℕ). h ≡ 0) locked.new.part.hangs.items) }
    ensures refused { IfErr result (IsRefused (knows locked.old.pass) (knows locked.new.pass)) }
{
    loop {
        match first_link(&locked.part().hangs) {
            None => return Ok(()),
            Some(hang) => match locked.widen(hang) {
                Ok(()) => {}
                Err(fault) => return Err(fault),
            },
        }
    }
}
