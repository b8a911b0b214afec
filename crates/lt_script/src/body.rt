//! The moves of a script, as far as they are read.
ghost use Rattle.std.specs.Prelude.{◌≡◌, ◌++◌, ◌∷◌, [], is_ok, length, if◌then◌else◌};
ghost use Rattle.lt_script.specs.Moves.{is_last, has_ended, has_begun, txns_of};

use lt_store::{Move, Op};
use std::alloc::{AllocError, Global};
use std::collections::BTreeMap;
use std::marker::Model;

/// Whether a transaction has no move behind this one.
fn is_last(op: &Op) -> bool
    ensures { result ≡ is_last op.now }
{
    matches!(op, Op::Commit | Op::Abort)
}

/// The moves in their order, and of each transaction that has one whether it had its last.
#[derive(Drop)]
pub(crate) struct Body {
    moves: Vec<Move>,
    ended: BTreeMap<u64, bool>,
}

impl Model for Body {
    ghost use Rattle.std.specs.Prelude.{List};
    ghost use Rattle.lt_store.specs.declared.op.Move.{Move};
    ghost use Rattle.lt_script.specs.Seen.{IsSeen};

    ghost Value = { List Move };

    ghost view = { λ b. b.moves.items };

    ghost invariant = { λ b. IsSeen b.ended b.moves.items };
}

impl Body {
    /// No moves yet.
    pub fn new(alloc: Global) -> Body
        ensures { result ≡ [] }
    {
        Body {
            moves: Vec::new(alloc),
            ended: BTreeMap::new(alloc),
        }
    }

    /// How many moves there are.
    pub fn len(&self) -> usize
        ensures { result ≡ length self.now }
    {
        self.moves.len()
    }

    /// Whether the transaction had its last move.
    pub fn has_ended(&self, txn: u64) -> bool
        ensures { result ≡ has_ended txn self.now }
    {
        self.ended.get(&txn).copied().unwrap_or(false)
    }

    /// Whether the transaction has a move.
    pub fn has_begun(&self, txn: u64) -> bool
        ensures { result ≡ has_begun txn self.now }
    {
        self.ended.contains_key(&txn)
    }

    /// How many transactions have moves.
    pub fn txns(&self) -> usize
        ensures { result ≡ length (txns_of self.now) }
    {
        self.ended.len()
    }

    /// One move more. Where memory runs out, the moves stay as they are.
    pub fn push(&mut self, next: Move) -> Result<(), AllocError>
        ensures { self.new ≡ (if is_ok result then self.old ++ next ∷ [] else self.old) }
    {
        let ended = self.has_ended(next.txn) | is_last(&next.op);
        // As a slice: the prover makes no plan for a push of one move, whose keys are of a third crate.
        self.moves.extend_from_slice(&[next])?;
        match self.ended.insert(next.txn, ended) {
            Ok(_) => Ok(()),
            Err(_) => {
                let _ = self.moves.pop();
                Err(AllocError)
            }
        }
    }

    /// The moves alone.
    pub fn into_moves(self) -> Vec<Move>
        ensures { result.items ≡ self }
    {
        let Body { moves, .. } = self;
        moves
    }
}
