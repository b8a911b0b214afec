//! Numbers as text.
ghost use Rattle.std.specs.Prelude.{◌≡◌, ℕ, ◌<◌, ◌^◌, IsNone, IfSome, decimal, IsTrue, ◌↔◌};
ghost use Rattle.lt_trace.specs.Grammar.{IsNumber};

use itoa::Buffer;

/// The number that the text may spell: if it spells one, then this.
fn parsed(text: &[u8]) -> Option<u64>
    ensures none { IsNone result → (n : ℕ) → n < 2 ^ 64 → text.now ≡ decimal n → ⊥ }
    ensures only { IfSome result (λ m. (n : ℕ) → n < 2 ^ 64 → text.now ≡ decimal n → n ≡ m) }
{
    let Ok(digits) = str::from_utf8(text) else {
        return None;
    };
    let Ok(n) = digits.parse::<u64>() else {
        return None;
    };
    Some(n)
}

/// Whether the text is the spelling of the number.
fn is_spelling(text: &[u8], n: u64) -> bool
    ensures { IsTrue result ↔ (text.now ≡ decimal n) }
{
    let mut buffer = Buffer::new();
    buffer.format(n).as_bytes() == text
}

/// Reads a number: None exactly where the text is no spelling of a number from the least to the most.
pub fn number(text: &[u8], least: u64, most: u64) -> Option<u64>
    ensures found { IfSome result (λ n. IsNumber text.now least most n) }
    ensures none { IsNone result → (n : ℕ) → IsNumber text.now least most n → ⊥ }
{
    let Some(n) = parsed(text) else {
        return None;
    };
    if n < least || n > most || !is_spelling(text, n) {
        return None;
    }
    Some(n)
}
