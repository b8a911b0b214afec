//! The forms of the header's lines.

/// A header line: its word, and the least and the greatest number that may stand behind it.
#[derive(Clone, Copy)]
pub struct HeaderForm {
    pub word: &'static [u8],
    pub least: u64,
    pub most: u64,
}

/// The version of the text.
pub(crate) const VERSION: HeaderForm = HeaderForm {
    word: b"rangelock",
    least: 1,
    most: 2,
};

/// How many trees the table has.
pub(crate) const TREES: HeaderForm = HeaderForm {
    word: b"trees",
    least: 1,
    most: 16,
};

/// The limit on rows in use.
pub const LIMIT: HeaderForm = HeaderForm {
    word: b"limit",
    least: 1,
    most: 65_536,
};

/// The most ranges of a buffer.
pub(crate) const BUFFER: HeaderForm = HeaderForm {
    word: b"buffer",
    least: 0,
    most: 65_536,
};
