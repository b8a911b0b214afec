//! The command line as `clap` reads it.
ghost use Rattle.std.specs.Prelude.{◌≡◌, IfOk, false};
ghost use Rattle.clap.specs.Simple.{app_of};
ghost use Rattle.clap.specs.Walk.{rule_of};
ghost use Rattle.clap.specs.declared.builder.command.Command.TheViews.{out-Command};
ghost use Rattle.lt_words.specs.Grammar.{bare, value, workers_form, maker_form, cut_form, program, grammar};

use clap::{Arg, Command};
use std::alloc::{AllocError, Global};

/// A command of this name, without help and version.
fn bare<'a>(alloc: Global, name: &'a str) -> Command<'a>
    ensures app { app_of result ≡ bare name.entry.now }
    ensures local { (out-Command result).has_globals ≡ false }
{
    Command::new(alloc, name)
        .disable_help_flag(true)
        .disable_help_subcommand(true)
        .disable_version_flag(true)
}

/// A value that must be there.
fn value<'a>(alloc: Global, id: &'a str) -> Arg<'a>
    ensures rule { rule_of result ≡ value id.entry.now }
    ensures local { result.global ≡ false }
{
    Arg::new(alloc, id).required(true)
}

/// A command of this name with a number of workers.
fn workers_form<'a>(alloc: Global, name: &'a str) -> Result<Command<'a>, AllocError>
    ensures app { IfOk result (λ form. app_of form ≡ workers_form name.entry.now) }
    ensures local { IfOk result (λ form. (out-Command form).has_globals ≡ false) }
{
    bare(alloc, name).arg(value(alloc, "N"))
}

/// A command of this name with the numbers of which a trace is made.
fn maker_form<'a>(alloc: Global, name: &'a str) -> Result<Command<'a>, AllocError>
    ensures app { IfOk result (λ form. app_of form ≡ maker_form name.entry.now) }
    ensures local { IfOk result (λ form. (out-Command form).has_globals ≡ false) }
{
    bare(alloc, name)
        .arg(value(alloc, "SEED"))?
        .arg(value(alloc, "TXNS"))?
        .arg(value(alloc, "LINES"))
}

/// The command `cut`, with a number of workers and a key.
fn cut_form<'a>(alloc: Global) -> Result<Command<'a>, AllocError>
    ensures app { IfOk result (λ form. app_of form ≡ cut_form) }
    ensures local { IfOk result (λ form. (out-Command form).has_globals ≡ false) }
{
    bare(alloc, "cut")
        .arg(value(alloc, "N"))?
        .arg(value(alloc, "KEY"))
}

/// The program before it has its forms. The words begin with no name of it, and one of the forms must be there.
fn program<'a>(alloc: Global) -> Command<'a>
    ensures { app_of result ≡ program }
{
    bare(alloc, "rangelock")
        .no_binary_name(true)
        .subcommand_required(true)
}

/// The program's command line: one of the forms.
pub(crate) fn grammar<'a>(alloc: Global) -> Result<Command<'a>, AllocError>
    ensures { IfOk result (λ program. app_of program ≡ grammar) }
{
    program(alloc)
        .subcommand(bare(alloc, "serial"))?
        .subcommand(workers_form(alloc, "crew")?)?
        .subcommand(workers_form(alloc, "live")?)?
        .subcommand(maker_form(alloc, "make")?)?
        .subcommand(maker_form(alloc, "sum")?)?
        .subcommand(cut_form(alloc)?)?
        .subcommand(bare(alloc, "store"))
}
