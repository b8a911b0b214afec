//! The command that a form and its values are.
ghost use Rattle.std.specs.Prelude.{ℕ, IfSome, IfNone};
ghost use Rattle.clap.specs.Walk.{rows_of};
ghost use Rattle.clap.specs.Matches.{found_of};
ghost use Rattle.clap.specs.Simple.{subcommand_rows_of};
ghost use Rattle.lt_ranges.specs.declared.key.Key.{Key};
ghost use Rattle.lt_words.specs.Reading.{IsGiven, AreWorkersGiven, IsMarkGiven, AreGiven, Reads, IsRead};
ghost use Rattle.lt_words.specs.declared.command.Recipe.{Recipe};
ghost use Rattle.lt_words.specs.declared.command.Command.{Command};

use crate::command::{Command, MOST_WORKERS, Recipe};
use crate::mark::mark_of;
use clap::ArgMatches;
use lt_ranges::Key;
use lt_trace::{MOST_DRAWN_LINES, number};

/// The number that the value of this name is, if it is one from the least to the most.
fn number_in(values: &ArgMatches<'_>, name: &str, least: u64, most: u64) -> Option<u64>
    ensures some { IfSome result (IsGiven (rows_of (found_of values.now)) name.now least most) }
    ensures none { IfNone result ((n : ℕ) → ¬ IsGiven (rows_of (found_of values.now)) name.now least most n) }
{
    number(values.get_str(name)?.as_bytes(), least, most)
}

/// The number of workers that the value is, if it is one.
fn workers_in(values: &ArgMatches<'_>) -> Option<u32>
    ensures some { IfSome result (AreWorkersGiven (rows_of (found_of values.now))) }
    ensures none { IfNone result ((workers : ℕ) → ¬ AreWorkersGiven (rows_of (found_of values.now)) workers) }
{
    Some(number_in(values, "N", 1, MOST_WORKERS)? as u32)
}

/// The key that the value is, if it is one in quotation marks.
fn mark_in(values: &ArgMatches<'_>) -> Option<Key>
    ensures some { IfSome result (IsMarkGiven (rows_of (found_of values.now))) }
    ensures none { IfNone result ((mark : Key) → ¬ IsMarkGiven (rows_of (found_of values.now)) mark) }
{
    mark_of(values.get_str("KEY")?.as_bytes())
}

/// The numbers that the values are, if they are ones of which a trace can be made.
fn recipe_in(values: &ArgMatches<'_>) -> Option<Recipe>
    ensures some { IfSome result (AreGiven (rows_of (found_of values.now))) }
    ensures none { IfNone result ((recipe : Recipe) → ¬ AreGiven (rows_of (found_of values.now)) recipe) }
{
    let seed = number_in(values, "SEED", 0, u64::MAX)?;
    let txns = number_in(values, "TXNS", 1, 1_024)?;
    let lines = number_in(values, "LINES", 1, u64::from(MOST_DRAWN_LINES))?;
    Some(Recipe {
        seed,
        txns: txns as u32,
        lines: lines as u32,
    })
}

/// The command that the form of this name is, with these values.
fn form_of(name: &str, values: &ArgMatches<'_>) -> Option<Command>
    ensures some { IfSome result (Reads name.now (rows_of (found_of values.now))) }
    ensures none { IfNone result ((command : Command) → ¬ Reads name.now (rows_of (found_of values.now)) command) }
{
    match name {
        "serial" => Some(Command::Serial),
        "crew" => Some(Command::Crew(workers_in(values)?)),
        "live" => Some(Command::Live(workers_in(values)?)),
        "make" => Some(Command::Make(recipe_in(values)?)),
        "sum" => Some(Command::Sum(recipe_in(values)?)),
        "cut" => Some(Command::Cut {
            workers: workers_in(values)?,
            mark: mark_in(values)?,
        }),
        "store" => Some(Command::Store),
        _ => None,
    }
}

/// The command that was read.
pub(crate) fn command_in(matches: &ArgMatches<'_>) -> Option<Command>
    ensures some { IfSome result (IsRead (subcommand_rows_of matches.now)) }
    ensures none { IfNone result ((command : Command) → ¬ IsRead (subcommand_rows_of matches.now) command) }
{
    let (name, values) = matches.subcommand()?;
    form_of(name, values)
}
