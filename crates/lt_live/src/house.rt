//! What the threads see under one lock.
ghost use Rattle.std.specs.Prelude.{◌≡◌, ◌≤◌, ◌<◌, ◌-◌, length, vec_len, false, IfOk};
ghost use Rattle.lt_seq.specs.Yard.{Origin, origin_of, HasAll};
ghost use Rattle.lt_requests.specs.Registered.{Ascend, MayAsk, is_registered};
ghost use Rattle.lt_live.specs.House.{IsPassFit, Hears};

use lt_requests::Registry;
use lt_seq::{Note, Pass, Yard};
use std::alloc::{AllocError, Global};
use std::marker::{Brand, PhantomData};
use std::sync::{Condvar, Mutex, MutexGuard, Wait};

/// Which yard it is. Each run picks it.
pub trait Named {
    ghost yard: { Origin };
}

impl Named for Brand {
    ghost use Rattle.std.specs.Prelude.{[]};

    ghost yard = { record {
      identity = [];
      setting = record { plan = record { trees = 1; limit = 1; buffer = 0; passes = 1; first = 0 }; marks = [] };
    } };
}

/// Rights that lie in the house, with what their giver had seen.
#[derive(Drop)]
pub struct Lent<N: Note + Drop, J: Named> {
    note: N,
    rights: u32,
    of: PhantomData<J>,
    ghost of_yard: { N.origin note ≡ J.yard },
    ghost rights_are: { (N.view note).rights ≡ rights },
}

/// The house.
#[derive(Drop)]
pub struct House<N: Note + Drop, J: Named> {
    passes: u32,
    /// By the number of the pass that gave them, or that they were left for.
    notes: Vec<Option<Lent<N, J>>>,
    /// Who is awake, by the number of the pass.
    awake: Vec<bool>,
    /// What those that sleep wait for.
    pub(crate) registry: Registry,
    /// How many transactions have ended.
    pub(crate) ended: u64,
    /// Whether one wants to be alone.
    wanted: bool,
    /// Who is to try again though none has ended.
    called: Option<u64>,
    /// Whether memory ran out.
    pub(crate) stopped: bool,
    ghost passes_are: { passes ≡ J.yard.setting.plan.passes },
    ghost notes_are: { vec_len notes ≡ J.yard.setting.plan.passes },
    ghost awake_are: { vec_len awake ≡ J.yard.setting.plan.passes },
    ghost listed: { MayAsk J.yard.setting.plan.trees registry },
}

/// The house with its lock.
#[derive(Drop)]
pub struct Shared<N: Note + Drop, J: Named> {
    pub(crate) house: Mutex<House<N, J>>,
    pub(crate) moved: Condvar,
}

impl<N: Note + Drop, J: Named> Shared<N, J> {
    /// Memory ran out: all end.
    pub(crate) fn stop<R: Wait>(&self, rt: &R) {
        let mut house = self.house.lock(rt);
        house.stopped = true;
        self.moved.notify_all();
    }

    /// A transaction has ended: all that sleep may try again.
    pub(crate) fn tell_end<R: Wait>(&self, rt: &R) {
        let mut house = self.house.lock(rt);
        house.ended = house.ended.wrapping_add(1);
        self.moved.notify_all();
    }
}

/// No notes.
fn no_notes<N: Note + Drop, J: Named>(
    alloc: Global,
    passes: u32,
) -> Result<Vec<Option<Lent<N, J>>>, AllocError>
    ensures { IfOk result (λ v. vec_len v ≡ passes) }
{
    let mut notes = Vec::new(alloc);
    for _pass in 0..passes {
        notes.push(None)?;
    }
    Ok(notes)
}

impl<N: Note + Drop, J: Named> House<N, J> {
    /// A house in which none is awake yet.
    pub fn new(alloc: Global, passes: u32) -> Result<House<N, J>, AllocError>
        requires { passes ≡ J.yard.setting.plan.passes }
    {
        let notes = no_notes(alloc, passes)?;
        let awake = Vec::from_elem(alloc, false, passes as usize)?;
        Ok(House {
            passes,
            notes,
            awake,
            registry: Registry::new(alloc),
            ended: 0,
            wanted: false,
            called: None,
            stopped: false,
        })
    }

    /// Puts rights at this number.
    fn put(&mut self, number: u32, lent: Lent<N, J>)
        requires { number < J.yard.setting.plan.passes }
    {
        self.notes[number as usize] = Some(lent);
    }

    /// Takes what lies at this number.
    fn take(&mut self, number: u32) -> Option<Lent<N, J>>
        requires { number < J.yard.setting.plan.passes }
    {
        self.notes[number as usize].take()
    }

    /// Takes out what the transaction waits for, and tells how many others wait.
    #[tactic(auto, using(crate::proofs::HouseLaws::is_out, lt_requests::proofs::StartLaws::may_without))]
    pub(crate) fn forget(&mut self, txn: u64) -> usize
        ensures absent { is_registered txn self.new.registry ≡ false }
        ensures ascend { Ascend self.new.registry }
        ensures count { result ≡ length self.new.registry }
    {
        self.registry.forget(txn);
        self.registry.waiting().len()
    }

    /// Whether another than this one is awake.
    fn is_any_awake(&self, number: u32) -> bool {
        for other in 0..self.passes {
            if other != number && self.awake[other as usize] {
                return true;
            }
        }
        false
    }
}

/// Shares rights of a pass into the house, for this number.
fn give<Y: Yard, J: Named>(
    yard: &Y,
    house: &mut House<Y::Note, J>,
    pass: &mut Y::Pass,
    number: u32,
    rights: u32,
)
    requires of { Y.Pass.origin pass.old ≡ origin_of (Y.identity yard.now) (Y.setting yard.now) }
    requires name { origin_of (Y.identity yard.now) (Y.setting yard.now) ≡ J.yard }
    requires fit { IsPassFit (Y.setting yard.now) (Y.Pass.view pass.old) }
    requires number { number < (Y.setting yard.now).plan.passes }
    requires enough { rights ≤ (Y.Pass.view pass.old).rights }
    ensures of { Y.Pass.origin pass.new ≡ origin_of (Y.identity yard.now) (Y.setting yard.now) }
    ensures fit { IsPassFit (Y.setting yard.now) (Y.Pass.view pass.new) }
    ensures hears { Hears (Y.Pass.view pass.old) (Y.Pass.view pass.new) }
    ensures rights { (Y.Pass.view pass.new).rights ≡ (Y.Pass.view pass.old).rights - rights }
{
    let note = yard.share(pass, rights);
    house.put(
        number,
        Lent {
            note,
            rights,
            of: PhantomData,
        },
    );
}

/// Learns what lies at a number of the house, if it fits.
fn learn_at<Y: Yard, J: Named>(
    yard: &Y,
    house: &mut House<Y::Note, J>,
    pass: &mut Y::Pass,
    number: u32,
)
    requires of { Y.Pass.origin pass.old ≡ origin_of (Y.identity yard.now) (Y.setting yard.now) }
    requires name { origin_of (Y.identity yard.now) (Y.setting yard.now) ≡ J.yard }
    requires fit { IsPassFit (Y.setting yard.now) (Y.Pass.view pass.old) }
    requires number { number < (Y.setting yard.now).plan.passes }
    ensures of { Y.Pass.origin pass.new ≡ origin_of (Y.identity yard.now) (Y.setting yard.now) }
    ensures fit { IsPassFit (Y.setting yard.now) (Y.Pass.view pass.new) }
    ensures hears { Hears (Y.Pass.view pass.old) (Y.Pass.view pass.new) }
{
    let passes = house.passes;
    let Some(lent) = house.take(number) else {
        return;
    };
    if lent.rights <= passes - pass.rights() {
        yard.learn(pass, lent.note);
    }
}

/// Shares all rights of a pass into the house.
fn give_up<Y: Yard, J: Named>(yard: &Y, house: &mut House<Y::Note, J>, pass: &mut Y::Pass)
    requires of { Y.Pass.origin pass.old ≡ origin_of (Y.identity yard.now) (Y.setting yard.now) }
    requires name { origin_of (Y.identity yard.now) (Y.setting yard.now) ≡ J.yard }
    requires fit { IsPassFit (Y.setting yard.now) (Y.Pass.view pass.old) }
    ensures of { Y.Pass.origin pass.new ≡ origin_of (Y.identity yard.now) (Y.setting yard.now) }
    ensures fit { IsPassFit (Y.setting yard.now) (Y.Pass.view pass.new) }
    ensures hears { Hears (Y.Pass.view pass.old) (Y.Pass.view pass.new) }
    ensures none { (Y.Pass.view pass.new).rights ≡ 0 }
{
    let number = pass.number();
    learn_at(yard, house, pass, number);
    let rights = pass.rights();
    give(yard, house, pass, number, rights);
}

/// Learns all that lies in the house.
fn learn_all<Y: Yard, J: Named>(yard: &Y, house: &mut House<Y::Note, J>, pass: &mut Y::Pass)
    requires of { Y.Pass.origin pass.old ≡ origin_of (Y.identity yard.now) (Y.setting yard.now) }
    requires name { origin_of (Y.identity yard.now) (Y.setting yard.now) ≡ J.yard }
    requires fit { IsPassFit (Y.setting yard.now) (Y.Pass.view pass.old) }
    ensures of { Y.Pass.origin pass.new ≡ origin_of (Y.identity yard.now) (Y.setting yard.now) }
    ensures fit { IsPassFit (Y.setting yard.now) (Y.Pass.view pass.new) }
    ensures hears { Hears (Y.Pass.view pass.old) (Y.Pass.view pass.new) }
{
    let passes = house.passes;
    for number in 0..passes {
        learn_at(yard, house, pass, number);
    }
}

/// Gives way where another wants to be alone: waits until none does, and the pass has a right again.
pub fn give_way<'b, R: Wait, Y: Yard, J: Named>(
    rt: &R,
    yard: &Y,
    moved: &Condvar,
    house: MutexGuard<'b, House<Y::Note, J>>,
    pass: &mut Y::Pass,
) -> MutexGuard<'b, House<Y::Note, J>>
    requires of { Y.Pass.origin pass.old ≡ origin_of (Y.identity yard.now) (Y.setting yard.now) }
    requires name { origin_of (Y.identity yard.now) (Y.setting yard.now) ≡ J.yard }
    requires fit { IsPassFit (Y.setting yard.now) (Y.Pass.view pass.old) }
    requires right { 1 ≤ (Y.Pass.view pass.old).rights }
    ensures of { Y.Pass.origin pass.new ≡ origin_of (Y.identity yard.now) (Y.setting yard.now) }
    ensures fit { IsPassFit (Y.setting yard.now) (Y.Pass.view pass.new) }
    ensures hears { Hears (Y.Pass.view pass.old) (Y.Pass.view pass.new) }
    ensures right { 1 ≤ (Y.Pass.view pass.new).rights }
{
    let mut house = house;
    if !house.wanted {
        return house;
    }
    let number = pass.number();
    give_up(yard, &mut house, pass);
    moved.notify_all();
    for _ in rt.forever() {
        house = moved.wait(rt, house);
        if !house.wanted {
            learn_at(yard, &mut house, pass, number);
            if pass.rights() > 0 {
                return house;
            }
        }
    }
    unreachable!()
}

/// Waits until the pass has all the rights.
pub fn gather<'b, R: Wait, Y: Yard, J: Named>(
    rt: &R,
    yard: &Y,
    moved: &Condvar,
    house: MutexGuard<'b, House<Y::Note, J>>,
    pass: &mut Y::Pass,
) -> MutexGuard<'b, House<Y::Note, J>>
    requires of { Y.Pass.origin pass.old ≡ origin_of (Y.identity yard.now) (Y.setting yard.now) }
    requires name { origin_of (Y.identity yard.now) (Y.setting yard.now) ≡ J.yard }
    requires fit { IsPassFit (Y.setting yard.now) (Y.Pass.view pass.old) }
    ensures of { Y.Pass.origin pass.new ≡ origin_of (Y.identity yard.now) (Y.setting yard.now) }
    ensures fit { IsPassFit (Y.setting yard.now) (Y.Pass.view pass.new) }
    ensures hears { Hears (Y.Pass.view pass.old) (Y.Pass.view pass.new) }
    ensures all { HasAll (Y.setting yard.now) (Y.Pass.view pass.new) }
{
    let mut house = house;
    house.wanted = true;
    moved.notify_all();
    for _ in rt.forever() {
        learn_all(yard, &mut house, pass);
        if pass.rights() == house.passes {
            return house;
        }
        house = moved.wait(rt, house);
    }
    unreachable!()
}

/// Leaves a right at a number, if it has more than one.
fn leave_one<Y: Yard, J: Named>(
    yard: &Y,
    house: &mut House<Y::Note, J>,
    pass: &mut Y::Pass,
    number: u32,
)
    requires of { Y.Pass.origin pass.old ≡ origin_of (Y.identity yard.now) (Y.setting yard.now) }
    requires name { origin_of (Y.identity yard.now) (Y.setting yard.now) ≡ J.yard }
    requires fit { IsPassFit (Y.setting yard.now) (Y.Pass.view pass.old) }
    requires right { 1 ≤ (Y.Pass.view pass.old).rights }
    requires number { number < (Y.setting yard.now).plan.passes }
    ensures of { Y.Pass.origin pass.new ≡ origin_of (Y.identity yard.now) (Y.setting yard.now) }
    ensures fit { IsPassFit (Y.setting yard.now) (Y.Pass.view pass.new) }
    ensures hears { Hears (Y.Pass.view pass.old) (Y.Pass.view pass.new) }
    ensures right { 1 ≤ (Y.Pass.view pass.new).rights }
{
    if house.awake[number as usize] && number != pass.number() && pass.rights() > 1 {
        give(yard, house, pass, number, 1);
    }
}

/// Leaves a right to each other that is awake.
pub fn leave<Y: Yard, J: Named>(
    yard: &Y,
    moved: &Condvar,
    house: &mut House<Y::Note, J>,
    pass: &mut Y::Pass,
)
    requires of { Y.Pass.origin pass.old ≡ origin_of (Y.identity yard.now) (Y.setting yard.now) }
    requires name { origin_of (Y.identity yard.now) (Y.setting yard.now) ≡ J.yard }
    requires fit { IsPassFit (Y.setting yard.now) (Y.Pass.view pass.old) }
    requires right { 1 ≤ (Y.Pass.view pass.old).rights }
    ensures of { Y.Pass.origin pass.new ≡ origin_of (Y.identity yard.now) (Y.setting yard.now) }
    ensures fit { IsPassFit (Y.setting yard.now) (Y.Pass.view pass.new) }
    ensures hears { Hears (Y.Pass.view pass.old) (Y.Pass.view pass.new) }
    ensures right { 1 ≤ (Y.Pass.view pass.new).rights }
{
    let passes = house.passes;
    for number in 0..passes {
        leave_one(yard, house, pass, number);
    }
    house.wanted = false;
    moved.notify_all();
}

/// Sleeps until a transaction has ended since, this one is called on, or memory ran out. The pass has no right then.
pub fn sleep<'b, R: Wait, Y: Yard, J: Named>(
    rt: &R,
    yard: &Y,
    moved: &Condvar,
    house: MutexGuard<'b, House<Y::Note, J>>,
    pass: &mut Y::Pass,
    txn: u64,
) -> MutexGuard<'b, House<Y::Note, J>>
    requires of { Y.Pass.origin pass.old ≡ origin_of (Y.identity yard.now) (Y.setting yard.now) }
    requires name { origin_of (Y.identity yard.now) (Y.setting yard.now) ≡ J.yard }
    requires fit { IsPassFit (Y.setting yard.now) (Y.Pass.view pass.old) }
    ensures of { Y.Pass.origin pass.new ≡ origin_of (Y.identity yard.now) (Y.setting yard.now) }
    ensures fit { IsPassFit (Y.setting yard.now) (Y.Pass.view pass.new) }
    ensures hears { Hears (Y.Pass.view pass.old) (Y.Pass.view pass.new) }
{
    let mut house = house;
    let seen = house.ended;
    let number = pass.number();
    give_up(yard, &mut house, pass);
    house.awake[number as usize] = false;
    if !house.is_any_awake(number) {
        house.called = house
            .registry
            .next_after(txn)
            .or(house.registry.next_after(0));
    }
    moved.notify_all();
    for _ in rt.forever() {
        if house.stopped {
            return house;
        }
        if !house.wanted && (house.ended != seen || house.called == Some(txn)) {
            house.called = None;
            house.awake[number as usize] = true;
            return house;
        }
        house = moved.wait(rt, house);
    }
    unreachable!()
}

/// Begins to play: waits until the pass has a right.
pub fn enter<'b, R: Wait, Y: Yard, J: Named>(
    rt: &R,
    yard: &Y,
    moved: &Condvar,
    house: MutexGuard<'b, House<Y::Note, J>>,
    pass: &mut Y::Pass,
) -> MutexGuard<'b, House<Y::Note, J>>
    requires of { Y.Pass.origin pass.old ≡ origin_of (Y.identity yard.now) (Y.setting yard.now) }
    requires name { origin_of (Y.identity yard.now) (Y.setting yard.now) ≡ J.yard }
    requires fit { IsPassFit (Y.setting yard.now) (Y.Pass.view pass.old) }
    requires some { 1 ≤ (Y.setting yard.now).plan.passes }
    ensures of { Y.Pass.origin pass.new ≡ origin_of (Y.identity yard.now) (Y.setting yard.now) }
    ensures fit { IsPassFit (Y.setting yard.now) (Y.Pass.view pass.new) }
    ensures hears { Hears (Y.Pass.view pass.old) (Y.Pass.view pass.new) }
    ensures right { 1 ≤ (Y.Pass.view pass.new).rights }
{
    let mut house = house;
    let number = pass.number();
    house.awake[number as usize] = true;
    for _ in rt.forever() {
        learn_at(yard, &mut house, pass, number);
        if pass.rights() > 0 {
            return house;
        }
        if !house.wanted {
            break;
        }
        house = moved.wait(rt, house);
    }
    let mut house = gather(rt, yard, moved, house, pass);
    leave(yard, moved, &mut house, pass);
    house
}

/// Ends: gives up the rights, and is awake no more. Where it leaves none awake, one that sleeps is called.
pub fn finish<Y: Yard, J: Named>(
    yard: &Y,
    moved: &Condvar,
    house: &mut House<Y::Note, J>,
    pass: &mut Y::Pass,
)
    requires of { Y.Pass.origin pass.old ≡ origin_of (Y.identity yard.now) (Y.setting yard.now) }
    requires name { origin_of (Y.identity yard.now) (Y.setting yard.now) ≡ J.yard }
    requires fit { IsPassFit (Y.setting yard.now) (Y.Pass.view pass.old) }
    ensures of { Y.Pass.origin pass.new ≡ origin_of (Y.identity yard.now) (Y.setting yard.now) }
    ensures fit { IsPassFit (Y.setting yard.now) (Y.Pass.view pass.new) }
    ensures hears { Hears (Y.Pass.view pass.old) (Y.Pass.view pass.new) }
    ensures none { (Y.Pass.view pass.new).rights ≡ 0 }
{
    let number = pass.number();
    give_up(yard, house, pass);
    house.awake[number as usize] = false;
    if !house.is_any_awake(number) {
        house.called = house.registry.next_after(0);
    }
    moved.notify_all();
}

/// Leaves a right at a number other than the pass's own, if it has more than one.
fn spread_one<Y: Yard, J: Named>(
    yard: &Y,
    house: &mut House<Y::Note, J>,
    pass: &mut Y::Pass,
    number: u32,
)
    requires of { Y.Pass.origin pass.old ≡ origin_of (Y.identity yard.now) (Y.setting yard.now) }
    requires name { origin_of (Y.identity yard.now) (Y.setting yard.now) ≡ J.yard }
    requires fit { IsPassFit (Y.setting yard.now) (Y.Pass.view pass.old) }
    requires number { number < (Y.setting yard.now).plan.passes }
    ensures of { Y.Pass.origin pass.new ≡ origin_of (Y.identity yard.now) (Y.setting yard.now) }
    ensures fit { IsPassFit (Y.setting yard.now) (Y.Pass.view pass.new) }
    ensures hears { Hears (Y.Pass.view pass.old) (Y.Pass.view pass.new) }
{
    if number != pass.number() && pass.rights() > 1 {
        give(yard, house, pass, number, 1);
    }
}

/// Leaves a right for each pass, before any begins.
pub fn spread<Y: Yard, J: Named>(yard: &Y, house: &mut House<Y::Note, J>, pass: &mut Y::Pass)
    requires of { Y.Pass.origin pass.old ≡ origin_of (Y.identity yard.now) (Y.setting yard.now) }
    requires name { origin_of (Y.identity yard.now) (Y.setting yard.now) ≡ J.yard }
    requires fit { IsPassFit (Y.setting yard.now) (Y.Pass.view pass.old) }
    ensures of { Y.Pass.origin pass.new ≡ origin_of (Y.identity yard.now) (Y.setting yard.now) }
    ensures fit { IsPassFit (Y.setting yard.now) (Y.Pass.view pass.new) }
    ensures hears { Hears (Y.Pass.view pass.old) (Y.Pass.view pass.new) }
{
    let passes = house.passes;
    for number in 0..passes {
        spread_one(yard, house, pass, number);
    }
    give_up(yard, house, pass);
}
