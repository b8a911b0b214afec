//! Laws of closed walks, each as the contract of a function that does nothing.
ghost use Rattle.std.specs.Prelude.{◌≡◌, ℕ, List, MatchOption};
ghost use Rattle.lt_waits.specs.declared.wait.Wait.{Wait};
ghost use Rattle.lt_waits.specs.Walks.{IsLeastWalk, HasNoClosedWalk, least_walk};

/// Two least walks through a transaction are one: what a least walk is fixes it.
#[tactic(auto, using(crate::proofs::OrderLaws::least_walks_one))]
pub fn least_walks_are_one()
    ensures { (edges : List Wait) (txn : ℕ) (one other : List ℕ) → IsLeastWalk edges txn one → IsLeastWalk edges txn other → one ≡ other }
{}

/// The walk that is computed is the least one, and there is one exactly where a closed walk goes through the transaction.
#[tactic(auto, using(crate::proofs::ShortLaws::least_walk_is))]
pub fn the_least_walk_is_computed()
    ensures { (edges : List Wait) (txn : ℕ)
        → MatchOption (least_walk edges txn) (HasNoClosedWalk edges txn) (λ walk. IsLeastWalk edges txn walk) }
{}
