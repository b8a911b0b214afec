//! What is written for a trace that is made.
ghost use Rattle.std.specs.Prelude.{◌≡◌, IfOk};
ghost use Rattle.lt_words.specs.Words.{IsRecipe};
ghost use Rattle.lt_program.specs.Answers.{made_text, sum_text};

use lt_history::summary;
use lt_manager::Manager;
use lt_runner::run_serial;
use lt_trace::{make, write};
use lt_watch::NoWatches;
use lt_words::Recipe;
use std::alloc::{AllocError, Global};

/// The text of the trace that is made of these numbers.
pub(crate) fn made_text(alloc: Global, recipe: &Recipe) -> Result<Vec<u8>, AllocError>
    requires { IsRecipe recipe.now }
    ensures { IfOk result (λ text. text.items ≡ made_text recipe.now) }
{
    let trace = make(alloc, recipe.seed, recipe.txns, recipe.lines)?;
    write(alloc, &trace)
}

/// The line of numbers about that trace's run by the plain scheduler.
pub(crate) fn sum_text(alloc: Global, recipe: &Recipe) -> Result<Vec<u8>, AllocError>
    requires { IsRecipe recipe.now }
    ensures { IfOk result (λ text. text.items ≡ sum_text recipe.now) }
{
    let trace = make(alloc, recipe.seed, recipe.txns, recipe.lines)?;
    let run = run_serial::<Manager, NoWatches>(alloc, &trace, 0, &mut NoWatches)?;
    summary(alloc, &run.receipts, &run.outcomes)
}
