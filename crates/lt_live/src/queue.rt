//! The queue that hands out transactions.
ghost use Rattle.std.specs.Prelude.{◌≡◌, ℕ, ◌≤◌, ◌<◌, ◌+◌, ◌-◌, [], ◌∷◌, ◌++◌, List, IfOk, IfErr, OnOk, IfSome, IfNone, MatchOption};
ghost use Rattle.std.specs.List.{AllByRecursion};
ghost use Rattle.crossbeam_queue.specs.Passes.{view, IsPassOf};
ghost use Rattle.crossbeam_queue.specs.Fifo.{Held};
ghost use Rattle.lt_live.specs.Deals.{hand, times};

use crossbeam_queue::protocol::{Join, Lesson, Outcome, Protocol, Split};
use crossbeam_queue::{Pass, RuledArrayQueue};
use std::alloc::{AllocError, Global};
use std::collections::LinkedList;
use std::sync::Wait;
use std::thread;

/// What a pass has put and taken, and its parts of the right to know the whole. No value of it is made.
pub struct Hand {
    pub parts: u64,
    pub put: LinkedList<u64>,
    pub taken: LinkedList<u64>,
}

/// Each transaction that was put was taken or is left, as often as it was put.
pub struct Fair;

impl Protocol<u64, Hand> for Fair {
    ghost use Rattle.std.specs.Prelude.{[]};
    ghost use Rattle.lt_live.specs.Deals.{hand, Balanced};

    ghost holds = { Balanced };

    ghost first = { hand 1024 [] [] };
}

pub struct Cut;

impl Split<Hand> for Cut {
    ghost use Rattle.std.specs.Prelude.{◌-◌, []};
    ghost use Rattle.lt_live.specs.Deals.{hand};

    ghost left = { λ v. hand (v.parts - 1) v.put v.taken };

    ghost right = { λ v. hand 1 [] [] };
}

impl Join<Hand> for Cut {
    ghost use Rattle.std.specs.Prelude.{◌+◌, ◌++◌, []};
    ghost use Rattle.lt_live.specs.Deals.{hand};

    ghost both = { λ v w. hand (v.parts + w.parts) (v.put ++ w.put) (v.taken ++ w.taken) };

    ghost spent = { hand 0 [] [] };
}

pub struct Puts;

impl Outcome<u64, Hand> for Puts {
    ghost then = { λ v x w. w ≡ hand v.parts (v.put ++ x ∷ []) v.taken };
}

pub struct Takes;

impl Outcome<u64, Hand> for Takes {
    ghost then = { λ v x w. (w ≡ hand v.parts v.put (v.taken ++ x ∷ [])) × (1 ≤ x) };
}

impl Lesson<u64, Hand> for Takes {
    ghost use Rattle.lt_live.specs.Deals.{Knows};

    ghost fact = { Knows };
}

pub type Line = RuledArrayQueue<u64, Hand, Fair>;

pub type Ticket = Pass<u64, Hand>;

/// Puts all of these. The queue has room for them.
pub fn put_all<R: Wait>(rt: &R, line: &Line, pass: &mut Ticket, all: &[u64])
    requires queue { IsPassOf line.now pass.old }
    requires parts { 0 < (view pass.old).parts }
    requires some { AllByRecursion (λ x. 1 ≤ x) all.now }
    ensures queue { IsPassOf line.now pass.new }
    ensures put { view pass.new ≡ hand (view pass.old).parts ((view pass.old).put ++ all.now) (view pass.old).taken }
{
    for txn in all {
        put(rt, line, pass, *txn);
    }
}

/// Puts one.
fn put<R: Wait>(rt: &R, line: &Line, pass: &mut Ticket, txn: u64)
    requires queue { IsPassOf line.now pass.old }
    requires parts { 0 < (view pass.old).parts }
    requires some { 1 ≤ txn }
    ensures queue { IsPassOf line.now pass.new }
    ensures put { view pass.new ≡ hand (view pass.old).parts ((view pass.old).put ++ txn ∷ []) (view pass.old).taken }
{
    for _ in rt.forever() {
        if line.try_push_as::<Puts>(pass, txn).is_ok() {
            return;
        }
        thread::yield_now();
    }
    unreachable!()
}

/// Takes one.
pub fn take<R: Wait>(rt: &R, line: &Line, pass: &mut Ticket) -> Option<u64>
    requires queue { IsPassOf line.now pass.old }
    requires parts { 0 < (view pass.old).parts }
    ensures queue { IsPassOf line.now pass.new }
    ensures taken { IfSome result (λ x. (view pass.new ≡ hand (view pass.old).parts (view pass.old).put ((view pass.old).taken ++ x ∷ []))
        × (1 ≤ x)) }
    ensures none { IfNone result ((view pass.new ≡ view pass.old)
        × ((view pass.old).parts ≡ 1024 → (x : ℕ) → times x (view pass.old).put ≡ times x (view pass.old).taken)) }
{
    line.pop_as::<Takes, R>(rt, pass)
}

/// One more pass, with one part.
pub fn another(line: &Line, pass: &mut Ticket) -> Ticket
    requires queue { IsPassOf line.now pass.old }
    requires parts { 1 < (view pass.old).parts }
    ensures queue { IsPassOf line.now pass.new × IsPassOf line.now result }
    ensures views { (view pass.new ≡ hand ((view pass.old).parts - 1) (view pass.old).put (view pass.old).taken) × (view result ≡ hand 1 [] []) }
{
    line.another::<Cut>(pass)
}

/// Takes in what another has put and taken.
pub fn absorb(line: &Line, pass: &mut Ticket, other: Ticket)
    requires queue { IsPassOf line.now pass.old × IsPassOf line.now other }
    requires parts { 0 < (view pass.old).parts }
    ensures queue { IsPassOf line.now pass.new }
    ensures view { view pass.new ≡ hand ((view pass.old).parts + (view other).parts) ((view pass.old).put ++ (view other).put)
        ((view pass.old).taken ++ (view other).taken) }
{
    line.absorb::<Cut>(pass, other);
}

/// A queue with room for so many.
pub fn open(alloc: Global, room: usize) -> Result<(Line, Ticket), AllocError>
    requires { 0 < room }
    ensures { IfOk result (λ q. IsPassOf q.0 q.1 × (view q.1 ≡ hand 1024 [] [])) }
{
    Line::ruled(alloc, room)
}
