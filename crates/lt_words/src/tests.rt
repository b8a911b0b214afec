//! Words that are a command, and words that are none.
use crate::{Command, Recipe, command_of};
use lt_ranges::Key;
use std::alloc::{AllocError, Global};
use std::test::Fail;

/// The command of these words.
fn command(alloc: Global, words: &[&str]) -> Result<Option<Command>, AllocError> {
    let mut owned = Vec::new(alloc);
    for word in words {
        owned.push(String::from_str(alloc, word)?)?;
    }
    command_of(alloc, &owned)
}

/// Whether these words are found to be no command.
fn is_no_command(alloc: Global, words: &[&str]) -> bool {
    matches!(command(alloc, words), Ok(None))
}

const LEAST: Recipe = Recipe {
    seed: 0,
    txns: 1,
    lines: 1,
};

const MOST: Recipe = Recipe {
    seed: u64::MAX,
    txns: 1_024,
    lines: 64_512,
};

/// Each form with the least and the most numbers.
const FORMS: [(&[&str], Command); 10] = [
    (&["serial"], Command::Serial),
    (&["store"], Command::Store),
    (&["crew", "1"], Command::Crew(1)),
    (&["crew", "16"], Command::Crew(16)),
    (&["live", "1"], Command::Live(1)),
    (&["live", "16"], Command::Live(16)),
    (&["make", "0", "1", "1"], Command::Make(LEAST)),
    (
        &["make", "18446744073709551615", "1024", "64512"],
        Command::Make(MOST),
    ),
    (&["sum", "0", "1", "1"], Command::Sum(LEAST)),
    (
        &["sum", "18446744073709551615", "1024", "64512"],
        Command::Sum(MOST),
    ),
];

#[test]
fn each_form_is_read(rt: HostRuntime) -> Result<(), Fail> {
    let alloc = rt.alloc();
    for (words, read) in FORMS {
        assert_eq!(rt; command(alloc, words)?, Some(read));
    }
    Ok(())
}

/// Text of 63 letters `a` in quotation marks.
const LONGEST: &str = "\"aaaaaaaaaaaaaaaaaaaaaaaaaaaaaaaaaaaaaaaaaaaaaaaaaaaaaaaaaaaaaaa\"";

/// Text of 64 letters `a` in quotation marks.
const TOO_LONG: &str = "\"aaaaaaaaaaaaaaaaaaaaaaaaaaaaaaaaaaaaaaaaaaaaaaaaaaaaaaaaaaaaaaaa\"";

/// Each text of a key in quotation marks, with the bytes that it spells.
const MARKS: [(&str, &[u8]); 5] = [
    ("\"\"", b""),
    ("\"d\"", b"d"),
    ("\"*\"", b"*"),
    ("\"\\x00d\\xff\"", b"\x00d\xff"),
    (LONGEST, &[b'a'; 63]),
];

#[test]
fn cuts_are_read(rt: HostRuntime) -> Result<(), Fail> {
    let alloc = rt.alloc();
    for (text, bytes) in MARKS {
        let mark = Key::new(bytes)?;
        let least = Command::Cut { workers: 1, mark };
        assert_eq!(rt; command(alloc, &["cut", "1", text])?, Some(least));
        let most = Command::Cut { workers: 16, mark };
        assert_eq!(rt; command(alloc, &["cut", "16", text])?, Some(most));
    }
    Ok(())
}

/// Words that are no cut: too few, too many, a number that is out of its range, and what is no key in quotation marks.
const NO_CUT: [&[&str]; 16] = [
    &["cut"],
    &["cut", "4"],
    &["cut", "0", "\"d\""],
    &["cut", "17", "\"d\""],
    &["cut", "04", "\"d\""],
    &["cut", "4", ""],
    &["cut", "4", "d"],
    &["cut", "4", "\"d"],
    &["cut", "4", "\"d\"*"],
    &["cut", "4", "-"],
    &["cut", "4", "+"],
    &["cut", "4", "\"d\"", "x"],
    &["cut", "\"d\"", "4"],
    &["cut", "4", "\"\\x64\""],
    &["cut", "4", TOO_LONG],
    &["crew", "4", "\"d\""],
];

#[test]
fn other_cuts_are_no_command(rt: HostRuntime) -> Result<(), Fail> {
    let alloc = rt.alloc();
    for words in NO_CUT {
        assert!(rt; is_no_command(alloc, words));
    }
    Ok(())
}

/// Words that are no command: empty ones, ones that begin with `-`, stray ones, too few, a number that is written otherwise or
/// out of its range, and what asks for help.
const NO_COMMAND: [&[&str]; 26] = [
    &[],
    &[""],
    &["-x"],
    &["--", "serial"],
    &["serial", "x"],
    &["serial", ""],
    &["serially"],
    &["store", "x"],
    &["stores"],
    &["crew"],
    &["crew", "-1"],
    &["crew", "04"],
    &["crew", "17"],
    &["crew", "4", "4"],
    &["live"],
    &["live", "0"],
    &["live", "17"],
    &["live", "04"],
    &["live", "-1"],
    &["live", "4", "4"],
    &["make", "0", "1"],
    &["make", "18446744073709551616", "1", "1"],
    &["sum", "0", "1", "1", "1"],
    &["help"],
    &["--help"],
    &["serial", "--help"],
];

#[test]
fn other_words_are_no_command(rt: HostRuntime) -> Result<(), Fail> {
    let alloc = rt.alloc();
    for words in NO_COMMAND {
        assert!(rt; is_no_command(alloc, words));
    }
    Ok(())
}
