//! What C calls. No call has a condition: whatever C hands in is tested, and answered.
ghost use Rattle.std.specs.Prelude.{◌≡◌, ◌↔◌, IsTrue, true, false, IfSome, if◌then◌else◌};
ghost use Rattle.std.specs.List.{All};
ghost use Rattle.lt_c.specs.Handles.{Keeps, view_in};
ghost use Rattle.lt_c.specs.Opened.{IsShut, OpenTold};
ghost use Rattle.lt_c.specs.Told.{answer_of, refused, AskTold, FreeTold, ReleaseTold, WhoTold, JoinTold, LookTold};

use crate::answer::{BAD_ARGUMENT, DONE, LtAnswer, OUT_OF_MEMORY, answer_of};
use crate::c_handle::{LtHandle, opened, take};
use crate::counts::LtCounts;
use crate::opening::open;
use lt_seq::YardPlan;
use std::alloc::Global;

/// Whether it is shut.
fn is_shut(handle: &LtHandle) -> bool
    ensures { IsTrue result ↔ IsShut handle.now }
{
    !handle.is_open
}

/// Whether all are shut.
fn are_shut(handles: &[LtHandle]) -> bool
    ensures { IsTrue result ↔ All IsShut handles.now }
{
    handles.iter().all(|handle| is_shut(handle))
}

/// Opens a table of 1 to 16 trees, a limit of 1 to 65,536 rows and a buffer of at most 65,536, with 1 to 17 handles, which were shut.
#[unsafe(no_mangle)]
pub extern "C" fn lt_open(
    alloc: Global,
    handles: &mut [LtHandle],
    trees: u32,
    limit: u64,
    buffer: u64,
) -> LtAnswer
    ensures { OpenTold handles.old handles.new trees limit buffer result }
{
    let count = handles.len();
    if count == 0 || count > 17 || trees == 0 || trees > 16 {
        return answer_of(BAD_ARGUMENT, 0, 0, 0);
    }
    if limit == 0 || limit > 65_536 || buffer > 65_536 || !are_shut(handles) {
        return answer_of(BAD_ARGUMENT, 0, 0, 0);
    }
    let plan = YardPlan {
        trees,
        limit,
        buffer,
        passes: count as u32,
        first: 0,
    };
    let Ok(mut made) = open(alloc, &plan) else {
        return answer_of(OUT_OF_MEMORY, 0, 0, 0);
    };
    handles.swap_with_slice(&mut made);
    answer_of(DONE, 0, 0, 0)
}

/// Asks for the range between two keys for a transaction. Where others hold it, as many of their numbers as there is room for are written
/// to `holders`.
#[unsafe(no_mangle)]
pub extern "C" fn lt_ask(
    alloc: Global,
    handle: &mut LtHandle,
    txn: u64,
    tree: u32,
    left: &[u8],
    right: &[u8],
    holders: &mut [u64],
) -> LtAnswer
    ensures kept { handle.new.is_open ≡ handle.old.is_open }
    ensures shut { handle.old.is_open ≡ false → (result ≡ refused) × (holders.new ≡ holders.old) }
    ensures told { IfSome handle.old.slot.held (λ h. IfSome handle.new.slot.held (λ k. Keeps h k result
        × AskTold (view_in h) (view_in k) txn tree left.now right.now holders.old holders.new result)) }
{
    let Some(mut boxed) = take(alloc, handle) else {
        return answer_of(BAD_ARGUMENT, 0, 0, 0);
    };
    let answer = boxed.ask(txn, tree, left, right, holders);
    boxed.count(&answer);
    *handle = opened(boxed);
    answer
}

/// Frees the transaction's ranges that overlap the range between two keys. `first` tells that this is the first free of a release in the
/// tree.
#[unsafe(no_mangle)]
pub extern "C" fn lt_free(
    alloc: Global,
    handle: &mut LtHandle,
    txn: u64,
    tree: u32,
    left: &[u8],
    right: &[u8],
    first: bool,
) -> LtAnswer
    ensures kept { handle.new.is_open ≡ handle.old.is_open }
    ensures shut { handle.old.is_open ≡ false → result ≡ refused }
    ensures told { IfSome handle.old.slot.held (λ h. IfSome handle.new.slot.held (λ k. Keeps h k result
        × FreeTold (view_in h) (view_in k) txn tree left.now right.now first result)) }
{
    let Some(mut boxed) = take(alloc, handle) else {
        return answer_of(BAD_ARGUMENT, 0, 0, 0);
    };
    let answer = boxed.free(txn, tree, left, right, first);
    boxed.count(&answer);
    *handle = opened(boxed);
    answer
}

/// Frees all that the transaction holds in a tree, by one event: it ends a buffer of its own, and is the first free of a release there.
#[unsafe(no_mangle)]
pub extern "C" fn lt_release(alloc: Global, handle: &mut LtHandle, txn: u64, tree: u32) -> LtAnswer
    ensures kept { handle.new.is_open ≡ handle.old.is_open }
    ensures shut { handle.old.is_open ≡ false → result ≡ refused }
    ensures told { IfSome handle.old.slot.held (λ h. IfSome handle.new.slot.held (λ k. Keeps h k result
        × ReleaseTold (view_in h) (view_in k) txn tree result)) }
{
    let Some(mut boxed) = take(alloc, handle) else {
        return answer_of(BAD_ARGUMENT, 0, 0, 0);
    };
    let answer = boxed.release(txn, tree);
    boxed.count(&answer);
    *handle = opened(boxed);
    answer
}

/// Asks whose ranges overlap the range between two keys, but those of the transaction `as_txn`. As many of their numbers as there is room
/// for are written to `holders`.
#[unsafe(no_mangle)]
pub extern "C" fn lt_who(
    alloc: Global,
    handle: &mut LtHandle,
    txn: u64,
    as_txn: u64,
    tree: u32,
    left: &[u8],
    right: &[u8],
    holders: &mut [u64],
) -> LtAnswer
    ensures kept { handle.new.is_open ≡ handle.old.is_open }
    ensures shut { handle.old.is_open ≡ false → (result ≡ refused) × (holders.new ≡ holders.old) }
    ensures told { IfSome handle.old.slot.held (λ h. IfSome handle.new.slot.held (λ k. Keeps h k result
        × WhoTold (view_in h) (view_in k) txn as_txn tree left.now right.now holders.old holders.new result)) }
{
    let Some(mut boxed) = take(alloc, handle) else {
        return answer_of(BAD_ARGUMENT, 0, 0, 0);
    };
    let answer = boxed.who(txn, as_txn, tree, left, right, holders);
    boxed.count(&answer);
    *handle = opened(boxed);
    answer
}

/// Joins each longest run of neighbours of one owner in a tree into one range.
#[unsafe(no_mangle)]
pub extern "C" fn lt_escalate(alloc: Global, handle: &mut LtHandle, txn: u64, tree: u32) -> LtAnswer
    ensures kept { handle.new.is_open ≡ handle.old.is_open }
    ensures shut { handle.old.is_open ≡ false → result ≡ refused }
    ensures told { IfSome handle.old.slot.held (λ h. IfSome handle.new.slot.held (λ k. Keeps h k result
        × JoinTold (view_in h) (view_in k) txn tree result)) }
{
    let Some(mut boxed) = take(alloc, handle) else {
        return answer_of(BAD_ARGUMENT, 0, 0, 0);
    };
    let answer = boxed.escalate(txn, tree);
    boxed.count(&answer);
    *handle = opened(boxed);
    answer
}

/// Looks at the place of the next event, and at the rows in use.
#[unsafe(no_mangle)]
pub extern "C" fn lt_look(alloc: Global, handle: &mut LtHandle) -> LtAnswer
    ensures kept { handle.new.is_open ≡ handle.old.is_open }
    ensures shut { handle.old.is_open ≡ false → result ≡ refused }
    ensures told { IfSome handle.old.slot.held (λ h. IfSome handle.new.slot.held (λ k. Keeps h k result
        × LookTold (view_in h) (view_in k) result)) }
{
    let Some(mut boxed) = take(alloc, handle) else {
        return answer_of(BAD_ARGUMENT, 0, 0, 0);
    };
    let answer = boxed.look();
    boxed.count(&answer);
    *handle = opened(boxed);
    answer
}

/// What the handle has counted; nothing where it is not open.
#[unsafe(no_mangle)]
pub extern "C" fn lt_counters(alloc: Global, handle: &mut LtHandle) -> LtCounts
    ensures kept { handle.new.is_open ≡ handle.old.is_open }
    ensures shut { handle.old.is_open ≡ false → result ≡ record { granted = 0; held = 0; busy = 0; joins = 0 } }
    ensures told { IfSome handle.old.slot.held (λ h. result ≡ h.counts) }
    ensures same { handle.new.slot.held ≡ handle.old.slot.held }
{
    let Some(boxed) = take(alloc, handle) else {
        return LtCounts::none();
    };
    let counts = boxed.counts;
    *handle = opened(boxed);
    counts
}

/// Closes a handle. The last handle of a table frees it, with whatever is still held in it.
#[unsafe(no_mangle)]
pub extern "C" fn lt_close(alloc: Global, handle: &mut LtHandle) -> LtAnswer
    ensures closed { handle.new.is_open ≡ false }
    ensures told { result ≡ (if handle.old.is_open then answer_of 3 0 0 0 else refused) }
{
    match take(alloc, handle) {
        Some(_) => answer_of(DONE, 0, 0, 0),
        None => answer_of(BAD_ARGUMENT, 0, 0, 0),
    }
}
