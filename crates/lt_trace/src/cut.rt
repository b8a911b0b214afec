//! Cutting text, for those who read texts of this kind.
ghost use Rattle.std.specs.Prelude.{◌≡◌, ℕ, List, ◌++◌, ◌∷◌, MatchOption};
ghost use Rattle.lt_trace.specs.Cut.{Lacks};

/// What stands before the first such byte, and what behind it.
pub fn cut(text: &[u8], byte: u8) -> Option<(&[u8], &[u8])>
    ensures { MatchOption result (Lacks byte text.now)
        (λ parts. Lacks byte parts.0.now × (text.now ≡ parts.0.now ++ byte ∷ parts.1.now)) }
{
    for (i, other) in text.iter().enumerate() {
        if *other == byte {
            return Some((&text[..i], &text[i + 1..]));
        }
    }
    None
}

/// What stands behind this front, if the text begins with it.
pub fn strip<'a>(text: &'a [u8], front: &[u8]) -> Option<&'a [u8]>
    ensures { MatchOption result ((rest : List ℕ) → text.now ≡ front.now ++ rest → ⊥)
        (λ rest. text.now ≡ front.now ++ rest.now) }
{
    text.strip_prefix(front)
}
