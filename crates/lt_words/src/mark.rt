//! The key of a cut.
ghost use Rattle.std.specs.Prelude.{IfSome, IfNone};
ghost use Rattle.lt_ranges.specs.declared.key.Key.{Key};
ghost use Rattle.lt_words.specs.Reading.{SpellsMark};

use lt_ranges::Key;

/// The key in quotation marks that the text is, if it is one.
pub(crate) fn mark_of(text: &[u8]) -> Option<Key>
    ensures some { IfSome result (SpellsMark text.now) }
    ensures none { IfNone result ((mark : Key) → ¬ SpellsMark text.now mark) }
{
    let key = Key::read(text).ok()?;
    match key {
        Key::Bytes(_) => Some(key),
        _ => None,
    }
}
