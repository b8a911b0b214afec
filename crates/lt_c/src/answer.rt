//! What C is told.
ghost use Rattle.std.specs.Prelude.{◌≡◌, length, Ok, Err};
ghost use Rattle.lt_seq.specs.declared.fault.Fault.TheVariants.{OutOfLocks};
ghost use Rattle.lt_c.specs.Told.{answer_of, fault_told, ask_told, free_told, who_told, join_told, owners_told, named_told, written};

use crate::limit::Limited;
use lt_locktree::{Asked, Named};
use lt_seq::{Fault, JoinNote, Reply};

pub const GRANTED: u32 = 0;

pub const BUFFERED: u32 = 1;

pub const HELD: u32 = 2;

pub const DONE: u32 = 3;

pub const BUSY: u32 = 4;

pub const BAD_ARGUMENT: u32 = 100;

pub const OUT_OF_MEMORY: u32 = 101;

pub const OUT_OF_LOCKS: u32 = 102;

pub const HISTORY_FULL: u32 = 103;

/// What a call answers.
#[repr(C)]
#[derive(Clone, Copy, Debug)]
pub struct LtAnswer {
    pub status: u32,
    /// How many trees the call joined.
    pub joins: u32,
    /// The number of holders, of ranges that went, of ranges behind a join, or of rows in use.
    pub count: u64,
    /// The place of the event, or the place that was looked at.
    pub place: u64,
    /// The row that was met, and the handle that held it.
    pub row: u32,
    pub holder: u32,
}

/// An answer of these numbers.
pub(crate) fn answer_of(status: u32, joins: u32, count: u64, place: u64) -> LtAnswer
    ensures { result ≡ answer_of status joins count place }
{
    LtAnswer {
        status,
        joins,
        count,
        place,
        row: 0,
        holder: 0,
    }
}

/// What is told of a fault behind so many joins.
pub(crate) fn fault_told(joins: u32, fault: &Fault) -> LtAnswer
    ensures { result ≡ fault_told joins fault.now }
{
    match *fault {
        Fault::OutOfMemory => answer_of(OUT_OF_MEMORY, joins, 0, 0),
        Fault::Busy { row, holder } => LtAnswer {
            status: BUSY,
            joins,
            count: 0,
            place: 0,
            row,
            holder,
        },
        Fault::HistoryFull { place } => answer_of(HISTORY_FULL, joins, 0, place),
        Fault::OutOfLocks { place, used } => answer_of(OUT_OF_LOCKS, joins, used, place),
    }
}

/// Writes as many numbers as there is room for, from the front.
fn write(out: &mut [u64], numbers: &[u64])
    ensures { out.new ≡ written out.old numbers.now }
{
    let count = out.len().min(numbers.len());
    let (front, _) = out.split_at_mut(count);
    let (numbers, _) = numbers.split_at(count);
    front.copy_from_slice(numbers);
}

/// What is told of an ask. The holders that stood against it are written as far as there is room for them.
pub(crate) fn ask_told(limited: Limited, holders: &mut [u64]) -> LtAnswer
    ensures told { result ≡ ask_told limited.joins limited.answer }
    ensures holders { holders.new ≡ written holders.old (owners_told limited.answer) }
{
    let Limited { joins, answer } = limited;
    match answer {
        Ok(Asked { place, reply, .. }) => match reply {
            Reply::Granted => answer_of(GRANTED, joins, 0, place),
            Reply::Buffered => answer_of(BUFFERED, joins, 0, place),
            Reply::HeldBy(owners) => {
                let owners = owners.as_slice();
                write(holders, owners);
                answer_of(HELD, joins, owners.len() as u64, place)
            }
        },
        Err(fault) => fault_told(joins, &fault),
    }
}

/// What is told of a free.
pub(crate) fn free_told(freed: &Result<(u64, u64), Fault>) -> LtAnswer
    ensures { result ≡ free_told freed.now }
{
    match freed {
        Ok((place, count)) => answer_of(DONE, 0, *count, *place),
        Err(fault) => fault_told(0, fault),
    }
}

/// What is told of a question. The holders are written as far as there is room for them.
pub(crate) fn who_told(named: &Result<Named, Fault>, holders: &mut [u64]) -> LtAnswer
    ensures told { result ≡ who_told named.now }
    ensures holders { holders.new ≡ written holders.old (named_told named.now) }
{
    match named {
        Ok(named) => {
            let owners = named.owners.as_slice();
            write(holders, owners);
            answer_of(DONE, 0, owners.len() as u64, named.place)
        }
        Err(fault) => fault_told(0, fault),
    }
}

/// What is told of a join.
pub(crate) fn join_told(joined: &Result<JoinNote, Fault>) -> LtAnswer
    ensures { result ≡ join_told joined.now }
{
    match joined {
        Ok(note) => answer_of(DONE, 1, note.after, note.place),
        Err(fault) => fault_told(0, fault),
    }
}
