//! The statuses with which the program ends.

/// The command did its work: its input was read to the end, and all of its text was written.
pub const DONE: u8 = 0;

/// The words are no command.
pub const USAGE: u8 = 2;

/// The input is no trace, and the line that says so was written.
pub const REFUSED: u8 = 3;

/// The input failed.
pub const UNREAD: u8 = 4;

/// The output failed: some of the text or of the refusal may be written, but not all.
pub const UNWRITTEN: u8 = 5;

/// Memory ran out, and nothing was written.
pub const NO_MEMORY: u8 = 6;
