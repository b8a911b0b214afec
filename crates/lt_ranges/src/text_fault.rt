//! Why a text is not read as a key.
use thiserror::Error;

/// Why a text is not read as a key.
#[derive(Clone, Copy, Debug, PartialEq, Eq, Hash, Error)]
pub enum TextFault {
    /// It is the text of no key.
    #[error("not the text of a key")]
    NotText,
    /// It is spelled as a key's text, but of more than 63 bytes.
    #[error("a key has at most 63 bytes")]
    TooLong,
}
