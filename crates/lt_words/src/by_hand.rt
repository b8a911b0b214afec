//! The command that the words are, found without memory.
ghost use Rattle.std.specs.Prelude.{◌∷◌, [], IfSome, IfNone, map, string_bytes};
ghost use Rattle.lt_words.specs.declared.command.Recipe.{Recipe};
ghost use Rattle.lt_words.specs.Words.{IsCommand, IsNoCommand, SpellRecipe};

use crate::command::{Command, MOST_WORKERS, Recipe};
use crate::mark::mark_of;
use lt_trace::{MOST_DRAWN_LINES, number};

/// The command that the words are, if they are one. It takes no memory.
pub(crate) fn by_hand(words: &[String]) -> Option<Command>
    ensures some { IfSome result (IsCommand (map string_bytes words.now)) }
    ensures none { IfNone result (IsNoCommand (map string_bytes words.now)) }
{
    match words {
        [word] => single(word.as_str()),
        [word, workers] => with_workers(word.as_str(), workers.as_bytes()),
        [word, workers, mark] => cutter(word.as_str(), workers.as_bytes(), mark.as_bytes()),
        [word, seed, txns, lines] => maker(
            word.as_str(),
            seed.as_bytes(),
            txns.as_bytes(),
            lines.as_bytes(),
        ),
        _ => None,
    }
}

/// The command of one word.
fn single(word: &str) -> Option<Command>
    ensures some { IfSome result (IsCommand (word.now ∷ [])) }
    ensures none { IfNone result (IsNoCommand (word.now ∷ [])) }
{
    if word == "serial" {
        Some(Command::Serial)
    } else if word == "store" {
        Some(Command::Store)
    } else {
        None
    }
}

/// The command of a word and a number of workers.
fn with_workers(word: &str, workers: &[u8]) -> Option<Command>
    ensures some { IfSome result (IsCommand (word.now ∷ workers.now ∷ [])) }
    ensures none { IfNone result (IsNoCommand (word.now ∷ workers.now ∷ [])) }
{
    let workers = number(workers, 1, MOST_WORKERS)? as u32;
    if word == "crew" {
        Some(Command::Crew(workers))
    } else if word == "live" {
        Some(Command::Live(workers))
    } else {
        None
    }
}

/// The command of a word, a number of workers and a key.
fn cutter(word: &str, workers: &[u8], mark: &[u8]) -> Option<Command>
    ensures some { IfSome result (IsCommand (word.now ∷ workers.now ∷ mark.now ∷ [])) }
    ensures none { IfNone result (IsNoCommand (word.now ∷ workers.now ∷ mark.now ∷ [])) }
{
    let workers = number(workers, 1, MOST_WORKERS)? as u32;
    let mark = mark_of(mark)?;
    if word == "cut" {
        Some(Command::Cut { workers, mark })
    } else {
        None
    }
}

/// The numbers that these words are, if they are ones of which a trace can be made.
fn recipe_of(seed: &[u8], txns: &[u8], lines: &[u8]) -> Option<Recipe>
    ensures some { IfSome result (SpellRecipe seed.now txns.now lines.now) }
    ensures none { IfNone result ((recipe : Recipe) → ¬ SpellRecipe seed.now txns.now lines.now recipe) }
{
    let seed = number(seed, 0, u64::MAX)?;
    let txns = number(txns, 1, 1_024)?;
    let lines = number(lines, 1, u64::from(MOST_DRAWN_LINES))?;
    Some(Recipe {
        seed,
        txns: txns as u32,
        lines: lines as u32,
    })
}

/// The command of a word and three numbers.
fn maker(word: &str, seed: &[u8], txns: &[u8], lines: &[u8]) -> Option<Command>
    ensures some { IfSome result (IsCommand (word.now ∷ seed.now ∷ txns.now ∷ lines.now ∷ [])) }
    ensures none { IfNone result (IsNoCommand (word.now ∷ seed.now ∷ txns.now ∷ lines.now ∷ [])) }
{
    let recipe = recipe_of(seed, txns, lines)?;
    if word == "make" {
        Some(Command::Make(recipe))
    } else if word == "sum" {
        Some(Command::Sum(recipe))
    } else {
        None
    }
}
