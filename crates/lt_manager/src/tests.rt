//! The shared table at work, through the trait, beside the plain one.
ghost use Rattle.std.specs.Prelude.{◌≡◌, ◌≤◌, [], map, IfOk};
ghost use Rattle.std.specs.List.{AllByRecursion};
ghost use Rattle.lt_seq.specs.Passes.{opening_passes};
ghost use Rattle.lt_seq.specs.Yard.{IsPlan, origin_of};
ghost use Rattle.lt_rows.specs.Plan.{with_marks};
ghost use Rattle.lt_manager.specs.Views.{view_of, IsPassOfTable};

use crate::manager::Manager;
use crate::manager_pass::ManagerPass;
use lt_ranges::{Key, KeyRange};
use lt_seq::{
    Closed, Deed, Fault, Held, JoinNote, Look, Owners, Pass, Receipt, Reply, SeqYard, Yard,
    YardPlan,
};
use std::alloc::{AllocError, Global};
use std::process::Abort;
use std::test::Fail;
use std::thread::join;

/// A call by a transaction, in tree 0. Keys are single bytes.
#[derive(Clone, Copy)]
pub(crate) enum Call {
    /// An ask for one key.
    Ask(u64, u8),
    /// An ask for the keys from one to another.
    AskSpan(u64, u8, u8),
    /// The first free of a release, of all keys.
    Free(u64),
    /// Who is in the way of the transaction that is named behind the one that asks.
    Who(u64, u64, u8),
    Escalate(u64),
}

/// What a call answered.
#[derive(Clone, Copy, Debug, Drop, PartialEq, Eq)]
pub(crate) enum Kind {
    Granted,
    Buffered,
    HeldBy,
    Freed,
    Named,
    Joined,
    OutOfLocks,
    Full,
    Busy,
    Short,
}

/// What a call answered, at which place, and a number: the only owner or 0, the pairs that went, those after a join, or
/// the rows in use.
#[derive(Clone, Copy, Debug, Drop, PartialEq, Eq)]
pub(crate) struct Said(pub(crate) Kind, pub(crate) u64, pub(crate) u64);

fn only_of(owners: &Owners) -> u64 {
    match owners.as_slice() {
        [owner] => *owner,
        _ => 0,
    }
}

fn event_of(receipt: &Receipt) -> Said {
    let place = receipt.place;
    match &receipt.event.deed {
        Deed::Ask { reply, .. } => match reply {
            Reply::Granted => Said(Kind::Granted, place, 0),
            Reply::Buffered => Said(Kind::Buffered, place, 0),
            Reply::HeldBy(owners) => Said(Kind::HeldBy, place, only_of(owners)),
        },
        Deed::Free { count, .. } => Said(Kind::Freed, place, *count),
        Deed::Who { owners, .. } => Said(Kind::Named, place, only_of(owners)),
        Deed::Join { after, .. } => Said(Kind::Joined, place, *after),
    }
}

fn answer_of(answer: Result<Receipt, Fault>) -> Said {
    match answer {
        Ok(receipt) => event_of(&receipt),
        Err(Fault::OutOfLocks { place, used }) => Said(Kind::OutOfLocks, place, used),
        Err(Fault::HistoryFull { place }) => Said(Kind::Full, place, 0),
        Err(Fault::Busy { .. }) => Said(Kind::Busy, 0, 0),
        Err(Fault::OutOfMemory) => Said(Kind::Short, 0, 0),
    }
}

pub(crate) fn key(byte: u8) -> Key {
    match Key::new(&[byte]) {
        Ok(key) => key,
        Err(_) => Key::Below,
    }
}

pub(crate) fn point(byte: u8) -> KeyRange {
    match KeyRange::new(key(byte), key(byte)) {
        Ok(range) => range,
        Err(_) => KeyRange::whole(),
    }
}

pub(crate) fn span(left: u8, right: u8) -> KeyRange {
    match KeyRange::new(key(left), key(right)) {
        Ok(range) => range,
        Err(_) => KeyRange::whole(),
    }
}

/// Makes the call. A transaction that is named 0 is taken for 1.
fn make<Y: Yard>(yard: &Y, pass: &mut Y::Pass, call: &Call) -> Result<Receipt, Fault>
    requires of { Y.Pass.origin pass.old ≡ origin_of (Y.identity yard.now) (Y.setting yard.now) }
    requires right { 1 ≤ (Y.Pass.view pass.old).rights }
    requires trees { 1 ≤ (Y.setting yard.now).plan.trees }
    ensures of { Y.Pass.origin pass.new ≡ origin_of (Y.identity yard.now) (Y.setting yard.now) }
    ensures number { (Y.Pass.view pass.new).number ≡ (Y.Pass.view pass.old).number }
    ensures rights { (Y.Pass.view pass.new).rights ≡ (Y.Pass.view pass.old).rights }
{
    match *call {
        Call::Ask(txn, byte) => yard.ask(pass, txn.max(1), 0, &point(byte), false),
        Call::AskSpan(txn, left, right) => {
            yard.ask(pass, txn.max(1), 0, &span(left, right), false)
        }
        Call::Free(txn) => yard.free(pass, txn.max(1), 0, &KeyRange::whole(), true),
        Call::Who(txn, named, byte) => yard.who(pass, txn.max(1), named.max(1), 0, &point(byte)),
        Call::Escalate(txn) => yard.escalate(pass, txn.max(1), 0),
    }
}

/// What the calls of a lone pass answered, the notes it left, its events, and what its table left.
#[derive(Drop)]
pub(crate) struct Played {
    pub(crate) look: Look,
    pub(crate) answers: Vec<Said>,
    pub(crate) notes: Vec<JoinNote>,
    pub(crate) events: Vec<Said>,
    pub(crate) closed: Closed,
}

/// Makes the calls, one after another, in a fresh table of one pass.
pub(crate) fn play_in<Y: Yard>(
    alloc: Global,
    yard: Y,
    passes: Vec<Y::Pass>,
    calls: &[Call],
) -> Result<Played, AllocError>
    requires trees { 1 ≤ (Y.setting yard).plan.trees }
    requires one { (Y.setting yard).plan.passes ≡ 1 }
    requires of { AllByRecursion (λ p. Y.Pass.origin p ≡ origin_of (Y.identity yard) (Y.setting yard)) passes.items }
    requires passes { map Y.Pass.view passes.items ≡ opening_passes 1 }
{
    let mut passes = passes;
    let Some(mut pass) = passes.pop() else {
        unreachable!();
    };
    let mut answers = Vec::new(alloc);
    for call in calls {
        answers.push(answer_of(make(&yard, &mut pass, call)))?;
    }
    let look = yard.look(&mut pass);
    let notes = yard.take_notes(&mut pass);
    passes.push(pass)?;
    let closed = yard.close(alloc, passes)?;
    let mut events = Vec::new(alloc);
    for list in &closed.lists {
        for receipt in list {
            events.push(event_of(receipt))?;
        }
    }
    Ok(Played {
        look,
        answers,
        notes,
        events,
        closed,
    })
}

/// Makes the calls in a fresh table of one pass without marks.
pub(crate) fn play<Y: Yard>(
    alloc: Global,
    plan: &YardPlan,
    calls: &[Call],
) -> Result<Played, AllocError>
    requires plan { IsPlan plan.now }
    requires one { plan.now.passes ≡ 1 }
    requires served { 1 ≤ Y.MOST_PASSES }
{
    let (yard, passes) = Y::build(alloc, plan)?;
    play_in::<Y>(alloc, yard, passes, calls)
}

/// Whether two tables answered and left the same.
pub(crate) fn assert_same(rt: &impl Abort, played: &Played, plain: &Played) {
    assert_eq!(rt; played.look, plain.look);
    assert_eq!(rt; played.answers.as_slice(), plain.answers.as_slice());
    assert_eq!(rt; played.notes.len(), plain.notes.len());
    assert_eq!(rt; played.events.as_slice(), plain.events.as_slice());
    assert_eq!(rt; played.closed.places, plain.closed.places);
    assert_eq!(rt; played.closed.used, plain.closed.used);
    assert_eq!(rt; played.closed.left.as_slice(), plain.closed.left.as_slice());
}

/// Plays the calls in the shared table, and in the plain one, which answers and leaves the same.
fn play_both(
    rt: &impl Abort,
    alloc: Global,
    plan: &YardPlan,
    calls: &[Call],
) -> Result<Played, AllocError>
    requires plan { IsPlan plan.now }
    requires one { plan.now.passes ≡ 1 }
{
    let played = play::<Manager>(alloc, plan, calls)?;
    let plain = play::<SeqYard>(alloc, plan, calls)?;
    assert_same(rt, &played, &plain);
    Ok(played)
}

pub(crate) fn plan(limit: u64, buffer: u64, passes: u32) -> YardPlan
    requires limit { (1 ≤ limit) × (limit ≤ 65536) }
    requires buffer { buffer ≤ 65536 }
    requires passes { (1 ≤ passes) × (passes ≤ 17) }
    ensures plan { IsPlan result }
    ensures passes { (result.passes ≡ passes) × (result.trees ≡ 1) }
{
    YardPlan {
        trees: 1,
        limit,
        buffer,
        passes,
        first: 0,
    }
}

#[test]
fn a_held_key_is_refused_and_its_holder_named(rt: HostRuntime) -> Result<(), Fail> {
    let calls = [
        Call::Ask(1, b'a'),
        Call::Ask(2, b'a'),
        Call::Free(1),
        Call::Ask(2, b'a'),
    ];
    let played = play_both(&rt, rt.alloc(), &plan(8, 0, 1), &calls)?;
    assert_eq!(rt;
        played.answers.as_slice(),
        [
            Said(Kind::Granted, 0, 0),
            Said(Kind::HeldBy, 1, 1),
            Said(Kind::Freed, 2, 1),
            Said(Kind::Granted, 3, 0),
        ]
        .as_slice()
    );
    Ok(())
}

#[test]
fn a_question_of_another_ends_a_buffer_of_three(rt: HostRuntime) -> Result<(), Fail> {
    let calls = [
        Call::Ask(1, b'e'),
        Call::Ask(1, b'a'),
        Call::Ask(1, b'c'),
        Call::Who(2, 2, b'c'),
        Call::Ask(1, b'b'),
        Call::Escalate(1),
    ];
    let played = play_both(&rt, rt.alloc(), &plan(8, 4, 1), &calls)?;
    assert_eq!(rt;
        played.answers.as_slice(),
        [
            Said(Kind::Buffered, 0, 0),
            Said(Kind::Buffered, 1, 0),
            Said(Kind::Buffered, 2, 0),
            Said(Kind::Named, 3, 1),
            Said(Kind::Granted, 4, 0),
            Said(Kind::Joined, 5, 1),
        ]
        .as_slice()
    );
    assert_eq!(rt; played.look, Look { place: 6, used: 1 });
    assert_eq!(rt; played.notes.len(), 1);
    Ok(())
}

#[test]
fn an_ask_is_out_of_locks_behind_its_joins(rt: HostRuntime) -> Result<(), Fail> {
    let calls = [Call::Ask(1, b'a'), Call::Ask(2, b'c'), Call::Ask(1, b'b')];
    let played = play_both(&rt, rt.alloc(), &plan(1, 0, 1), &calls)?;
    assert_eq!(rt;
        played.answers.as_slice(),
        [
            Said(Kind::Granted, 0, 0),
            Said(Kind::OutOfLocks, 2, 1),
            Said(Kind::OutOfLocks, 3, 1),
        ]
        .as_slice()
    );
    assert_eq!(rt;
        played.events.as_slice(),
        [
            Said(Kind::Granted, 0, 0),
            Said(Kind::Joined, 1, 1),
            Said(Kind::Joined, 2, 1),
        ]
        .as_slice()
    );
    Ok(())
}

/// The join that the second ask made stays, and so does its note.
#[test]
fn an_ask_that_is_out_of_locks_leaves_the_note_of_its_join(rt: HostRuntime) -> Result<(), Fail> {
    let calls = [Call::Ask(1, b'a'), Call::Ask(2, b'c')];
    let played = play_both(&rt, rt.alloc(), &plan(1, 0, 1), &calls)?;
    assert_eq!(rt;
        played.answers.as_slice(),
        [Said(Kind::Granted, 0, 0), Said(Kind::OutOfLocks, 2, 1)].as_slice()
    );
    assert_eq!(rt;
        played.events.as_slice(),
        [Said(Kind::Granted, 0, 0), Said(Kind::Joined, 1, 1)].as_slice()
    );
    assert_eq!(rt; played.notes.len(), 1);
    Ok(())
}

/// A plan of one tree, eight rows and one pass, whose first event has this place.
fn plan_from(first: u64) -> YardPlan
    requires { first ≤ 549755813888 }
    ensures plan { IsPlan result }
    ensures passes { result.passes ≡ 1 }
{
    YardPlan {
        trees: 1,
        limit: 8,
        buffer: 0,
        passes: 1,
        first,
    }
}

#[test]
fn a_table_without_a_place_answers_that_its_history_is_full(rt: HostRuntime) -> Result<(), Fail> {
    let end = 549_755_813_888;
    let calls = [
        Call::Ask(1, b'a'),
        Call::Free(1),
        Call::Who(1, 1, b'a'),
        Call::Escalate(1),
    ];
    let played = play_both(&rt, rt.alloc(), &plan_from(end), &calls)?;
    assert_eq!(rt;
        played.answers.as_slice(),
        [Said(Kind::Full, end, 0); 4].as_slice()
    );
    assert_eq!(rt;
        played.look,
        Look {
            place: end,
            used: 0
        }
    );
    assert_eq!(rt; (played.notes.len(), played.closed.places), (0, 0));
    Ok(())
}

#[test]
fn the_last_place_is_given_away_once(rt: HostRuntime) -> Result<(), Fail> {
    let last = 549_755_813_887;
    let calls = [Call::AskSpan(1, b'a', b'c'), Call::Free(1)];
    let played = play_both(&rt, rt.alloc(), &plan_from(last), &calls)?;
    assert_eq!(rt;
        played.answers.as_slice(),
        [Said(Kind::Granted, last, 0), Said(Kind::Full, last + 1, 0)].as_slice()
    );
    assert_eq!(rt; (played.closed.places, played.closed.used), (1, 1));
    Ok(())
}

#[test]
fn a_closed_table_tells_what_is_held(rt: HostRuntime) -> Result<(), Fail> {
    let played = play_both(&rt, rt.alloc(), &plan(8, 0, 1), &[Call::Ask(1, b'a')])?;
    assert_eq!(rt; (played.closed.places, played.closed.used), (1, 1));
    assert_eq!(rt; played.closed.lists.len(), 1);
    assert_eq!(rt;
        played.closed.left.as_slice(),
        [Held {
            tree: 0,
            owner: 1,
            range: point(b'a')
        }]
        .as_slice()
    );
    Ok(())
}

/// A table of two passes, of which each has a right.
pub(crate) fn both(
    alloc: Global,
    plan: &YardPlan,
) -> Result<(Manager, ManagerPass, ManagerPass), AllocError>
    requires plan { IsPlan plan.now × (plan.now.passes ≡ 2) }
    ensures of { IfOk result (λ r. IsPassOfTable r.0.tree r.1 × IsPassOfTable r.0.tree r.2) }
    ensures plan { IfOk result (λ r. r.0.tree.rows.plan ≡ with_marks plan.now []) }
    ensures numbers { IfOk result (λ r. ((view_of r.1).number ≡ 0) × ((view_of r.2).number ≡ 1)) }
    ensures rights { IfOk result (λ r. ((view_of r.1).rights ≡ 1) × ((view_of r.2).rights ≡ 1)) }
{
    let (yard, mut passes) = Manager::build(alloc, plan)?;
    let (Some(mut two), Some(mut one)) = (passes.pop(), passes.pop()) else {
        unreachable!();
    };
    let note = yard.share(&mut one, 1);
    yard.learn(&mut two, note);
    Ok((yard, one, two))
}

/// Ends a table of two passes, with the rights of both.
pub(crate) fn close_both(
    alloc: Global,
    yard: Manager,
    one: ManagerPass,
    two: ManagerPass,
) -> Result<Closed, AllocError>
    requires of { IsPassOfTable yard.tree one × IsPassOfTable yard.tree two }
    requires plan { yard.tree.rows.plan.passes ≡ 2 }
    requires numbers { ((view_of one).number ≡ 0) × ((view_of two).number ≡ 1) }
    requires rights { ((view_of one).rights ≡ 1) × ((view_of two).rights ≡ 1) }
{
    let (mut one, mut two) = (one, two);
    let right = two.rights();
    let note = yard.share(&mut two, right);
    yard.learn(&mut one, note);
    let mut passes = Vec::new(alloc);
    passes.push(one)?;
    passes.push(two)?;
    yard.close(alloc, passes)
}

#[test]
fn a_closed_table_has_a_list_for_each_pass(rt: HostRuntime) -> Result<(), Fail> {
    let (yard, mut one, two) = both(rt.alloc(), &plan(64, 0, 2))?;
    assert_eq!(rt;
        answer_of(yard.ask(&mut one, 1, 0, &point(b'a'), false)),
        Said(Kind::Granted, 0, 0)
    );
    let closed = close_both(rt.alloc(), yard, one, two)?;
    match closed.lists.as_slice() {
        [first, second] => {
            assert!(rt; first.len() == 1 && second.is_empty());
            assert_eq!(rt; event_of(&first[0]), Said(Kind::Granted, 0, 0));
        }
        _ => assert!(rt; false, "there are not two lists"),
    }
    assert_eq!(rt; (closed.places, closed.used), (1, 1));
    assert_eq!(rt;
        closed.left.as_slice(),
        [Held {
            tree: 0,
            owner: 1,
            range: point(b'a')
        }]
        .as_slice()
    );
    Ok(())
}

/// Asks for each small letter as a transaction, and counts the events that this made.
fn ask_all(yard: &Manager, pass: ManagerPass, txn: u64) -> (ManagerPass, u64)
    requires of { IsPassOfTable yard.now.tree pass }
    requires right { 1 ≤ (view_of pass).rights }
    requires trees { 1 ≤ yard.now.tree.rows.plan.trees }
    requires txn { 1 ≤ txn }
    ensures of { IsPassOfTable yard.now.tree result.0 }
    ensures number { (view_of result.0).number ≡ (view_of pass).number }
    ensures rights { (view_of result.0).rights ≡ (view_of pass).rights }
{
    let mut pass = pass;
    let mut made: u64 = 0;
    for byte in b'a'..=b'z' {
        if yard.ask(&mut pass, txn, 0, &point(byte), false).is_ok() {
            made = made.wrapping_add(1);
        }
    }
    (pass, made)
}

#[test]
fn two_threads_ask_side_by_side(rt: HostRuntime) -> Result<(), Fail> {
    let alloc = rt.alloc();
    let (yard, one, two) = both(alloc, &plan(1000, 0, 2))?;
    let ((one, first), (two, second)) = join(
        &rt,
        || -> (ManagerPass, u64)
            requires { IsPassOfTable yard.tree one × (1 ≤ (view_of one).rights) × (1 ≤ yard.tree.rows.plan.trees) }
            ensures { IsPassOfTable yard.tree result.0 × ((view_of result.0).number ≡ (view_of one).number)
                × ((view_of result.0).rights ≡ (view_of one).rights) }
        { ask_all(&yard, one, 1) },
        || -> (ManagerPass, u64)
            requires { IsPassOfTable yard.tree two × (1 ≤ (view_of two).rights) × (1 ≤ yard.tree.rows.plan.trees) }
            ensures { IsPassOfTable yard.tree result.0 × ((view_of result.0).number ≡ (view_of two).number)
                × ((view_of result.0).rights ≡ (view_of two).rights) }
        { ask_all(&yard, two, 2) },
    );
    let closed = close_both(alloc, yard, one, two)?;
    assert_eq!(rt; closed.places, first.wrapping_add(second));
    assert_eq!(rt; closed.lists.len(), 2);
    assert!(rt; closed.left.len() <= 26 && closed.left.len() as u64 == closed.used);
    Ok(())
}
