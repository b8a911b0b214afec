//! Scripts.
use lt_store::Move;
use std::marker::Model;

/// A script: moves of transactions on a map, and the limit of its lock table.
#[derive(Debug, Drop)]
pub struct Script {
    limit: u64,
    moves: Vec<Move>,
}

impl Model for Script {
    ghost use Rattle.lt_script.specs.Script.{ScriptView};
    ghost use Rattle.lt_script.specs.Grammar.{IsScript};

    ghost Value = { ScriptView };

    ghost view = { λ s. record { limit = s.limit; moves = s.moves.items } };

    ghost invariant = { λ s. IsScript (record { limit = s.limit; moves = s.moves.items }) };
}

impl Script {
    ghost use Rattle.std.specs.Prelude.{◌≡◌};
    ghost use Rattle.lt_script.specs.Grammar.{IsScript};

    /// The script of a limit and of moves without a fault.
    pub(crate) fn new(limit: u64, moves: Vec<Move>) -> Script
        requires { IsScript (record { limit = limit; moves = moves.items }) }
        ensures { result ≡ record { limit = limit; moves = moves.items } }
    {
        Script { limit, moves }
    }

    /// The limit on rows in use, from 1 to 65,536.
    pub fn limit(&self) -> u64
        ensures { result ≡ self.now.limit }
    {
        self.limit
    }

    /// Its moves in their order.
    pub fn moves(&self) -> &[Move]
        ensures moves { result.now ≡ self.now.moves }
        ensures script { IsScript self.now }
    {
        &self.moves
    }
}
