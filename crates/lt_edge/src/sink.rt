//! Sinks.
ghost use Rattle.std.specs.Prelude.{ℕ, ◌<◌, List, length};
ghost use Rattle.std.specs.declared.option.Option.{Option};
ghost use Rattle.lt_edge.specs.Bytes.{Takes};
ghost use Rattle.lt_edge.specs.Causes.{HasCause};

use crate::Failed;

/// Takes bytes, one piece after another.
pub trait Sink {
    /// The bytes that it has taken, where the sink tells them.
    ghost taken: { Self → Option (List ℕ) };

    /// How often it failed. It never falls.
    ghost faults: { Self → ℕ };

    /// Takes the first of the bytes and says how many they are, at least 1. Where it fails, it takes none.
    fn put(&mut self, bytes: &[u8]) -> Result<usize, Failed>
        requires { 0 < length bytes.now }
        ensures bytes { Takes (taken self.old) (taken self.new) bytes.now result }
        ensures cause { HasCause (faults self.old) (faults self.new) result };
}
