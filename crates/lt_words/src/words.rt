//! The command that the words are.
ghost use Rattle.std.specs.Prelude.{◌↔◌, All, IsTrue, IsErr, IfOk, IfSome, IfNone, map, string_bytes};
ghost use Rattle.lt_words.specs.declared.command.Command.{Command};
ghost use Rattle.lt_words.specs.Words.{IsCommand, IsNoCommand};
ghost use Rattle.lt_words.specs.Reading.{IsPlain};

use crate::by_hand::by_hand;
use crate::command::Command;
use crate::grammar::grammar;
use crate::reading::command_in;
use clap::error::ErrorKind;
use std::alloc::{AllocError, Global};

/// Whether the word is not empty, and does not begin with `-`.
fn is_plain(word: &str) -> bool
    ensures { IsTrue result ↔ IsPlain word.now }
{
    match word.as_bytes() {
        [first, ..] => *first != b'-',
        [] => false,
    }
}

/// Whether no word is empty or begins with `-`.
fn are_plain(words: &[String]) -> bool
    ensures { IsTrue result ↔ All (λ word. IsPlain (string_bytes word)) words.now }
{
    words.iter().all(|word| is_plain(word.as_str()))
}

/// The command that `clap` makes of words of which none is empty or begins with `-`.
fn by_clap(alloc: Global, words: &[String]) -> Result<Option<Command>, AllocError>
    requires { All (λ word. IsPlain (string_bytes word)) words.now }
    ensures some { IfOk result (λ found. IfSome found (IsCommand (map string_bytes words.now))) }
    ensures none { IfOk result (λ found. IfNone found (IsNoCommand (map string_bytes words.now))) }
{
    match grammar(alloc)?.try_get_matches_from(words) {
        Ok(matches) => Ok(command_in(&matches)),
        Err(error) if error.kind() == ErrorKind::OutOfMemory => Err(AllocError),
        Err(_) => Ok(None),
    }
}

/// The command that the words are, if they are one. That they are none is told where there is no memory, too.
pub fn command_of(alloc: Global, words: &[String]) -> Result<Option<Command>, AllocError>
    ensures some { IfOk result (λ found. IfSome found (IsCommand (map string_bytes words.now))) }
    ensures none { IfOk result (λ found. IfNone found (IsNoCommand (map string_bytes words.now))) }
    ensures memory { IsErr result → (command : Command) × IsCommand (map string_bytes words.now) command }
{
    if !are_plain(words) {
        return Ok(None);
    }
    match by_clap(alloc, words) {
        Ok(found) => Ok(found),
        Err(AllocError) => match by_hand(words) {
            Some(_) => Err(AllocError),
            None => Ok(None),
        },
    }
}
