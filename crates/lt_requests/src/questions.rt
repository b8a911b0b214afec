//! What a search has come to so far.
ghost use Rattle.std.specs.Prelude.{◌≡◌, ◌++◌, ◌∷◌, [], true, All, OnOk};
ghost use Rattle.std.specs.List.Sorted.{IsStrictlyIncreasing};
ghost use Rattle.lt_requests.specs.Registered.{Ascend, is_registered};
ghost use Rattle.lt_requests.specs.Search.{wishes_of, new_wishes, edges_of};
ghost use Rattle.lt_requests.specs.Questions.{AreKept};

use crate::cycle::Edge;
use crate::registry::Registry;
use crate::wish::Wish;
use std::alloc::{AllocError, Global};

/// Whom a search asks for, and which edges it has found.
#[derive(Drop)]
pub(crate) struct Questions {
    /// Whose wishes are asked for, in this order.
    pub(crate) listed: Vec<Wish>,
    /// The same, by ascending transaction.
    pub(crate) asked: Registry,
    pub(crate) edges: Vec<Edge>,
}

impl Questions {
    /// None is listed, and there is no edge.
    pub(crate) fn new(alloc: Global) -> Questions
        ensures listed { result.listed.items ≡ [] }
        ensures asked { result.asked ≡ [] }
        ensures edges { result.edges.items ≡ [] }
    {
        Questions {
            listed: Vec::new(alloc),
            asked: Registry::new(alloc),
            edges: Vec::new(alloc),
        }
    }

    /// The event at this place named these owners to the waiter: an edge to each that waits, and each that waits, was not
    /// listed yet and isn't the one that searches is listed.
    pub(crate) fn note(
        &mut self,
        alloc: Global,
        registry: &Registry,
        txn: u64,
        waiter: u64,
        place: u64,
        owners: &[u64],
    ) -> Result<(), AllocError>
        requires ascend { IsStrictlyIncreasing owners.now }
        requires kept { AreKept registry.now self.old.listed.items self.old.asked }
        ensures kept { OnOk result (AreKept registry.now self.new.listed.items self.new.asked) }
        ensures listed { OnOk result (self.new.listed.items ≡ self.old.listed.items
            ++ new_wishes txn self.old.listed.items (wishes_of owners.now registry.now)) }
        ensures edges { OnOk result (self.new.edges.items ≡ self.old.edges.items
            ++ edges_of waiter place (wishes_of owners.now registry.now)) }
    {
        let named = registry.named(alloc, owners)?;
        self.draw(waiter, place, &named)?;
        self.list(registry, txn, &named)
    }

    /// Adds an edge to each of those named.
    fn draw(&mut self, waiter: u64, place: u64, named: &[Wish]) -> Result<(), AllocError>
        ensures edges { OnOk result (self.new.edges.items ≡ self.old.edges.items ++ edges_of waiter place named.now) }
        ensures listed { OnOk result (self.new.listed ≡ self.old.listed) }
        ensures asked { OnOk result (self.new.asked ≡ self.old.asked) }
    {
        for wish in named {
            self.edges.push(Edge {
                waiter,
                holder: wish.txn,
                place,
            })?;
        }
        Ok(())
    }

    /// Lists those named that are new.
    fn list(&mut self, registry: &Registry, txn: u64, named: &[Wish]) -> Result<(), AllocError>
        requires ascend { Ascend named.now }
        requires waiting { All (λ w. is_registered w.txn registry.now ≡ true) named.now }
        requires kept { AreKept registry.now self.old.listed.items self.old.asked }
        ensures kept { OnOk result (AreKept registry.now self.new.listed.items self.new.asked) }
        ensures listed { OnOk result (self.new.listed.items ≡ self.old.listed.items ++ new_wishes txn self.old.listed.items named.now) }
        ensures edges { OnOk result (self.new.edges ≡ self.old.edges) }
    {
        for wish in named {
            self.list_one(registry, txn, wish)?;
        }
        Ok(())
    }

    /// Lists one that is named, where it is new.
    fn list_one(&mut self, registry: &Registry, txn: u64, wish: &Wish) -> Result<(), AllocError>
        requires waiting { is_registered wish.now.txn registry.now ≡ true }
        requires kept { AreKept registry.now self.old.listed.items self.old.asked }
        ensures kept { OnOk result (AreKept registry.now self.new.listed.items self.new.asked) }
        ensures listed { OnOk result (self.new.listed.items ≡ self.old.listed.items
            ++ new_wishes txn self.old.listed.items (wish.now ∷ [])) }
        ensures edges { OnOk result (self.new.edges ≡ self.old.edges) }
    {
        if wish.txn == txn || self.asked.is_waiting(wish.txn) {
            return Ok(());
        }
        self.asked.add(*wish)?;
        self.listed.push(*wish)?;
        Ok(())
    }
}
