//! The fault of a source or a sink.

use thiserror::Error;

/// A source or a sink failed, and its count of faults rose.
#[derive(Clone, Copy, Debug, PartialEq, Eq, Hash, Error)]
#[error("the input or the output failed")]
pub struct Failed;
