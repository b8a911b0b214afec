//! Playing a script.
ghost use Rattle.std.specs.Prelude.{◌≡◌, ◌≤◌, [], ◌++◌, IfOk};
ghost use Rattle.lt_store.specs.View.{opening};
ghost use Rattle.lt_script.specs.Grammar.{AreFaultless};
ghost use Rattle.lt_script.specs.Play.{IsRunOfScript};
ghost use Rattle.lt_script.specs.Playing.{WerePlayed};

use crate::script::Script;
use crate::text::{push_answer, push_end, push_map};
use lt_seq::Yard;
use lt_store::{Finished, Move, Store};
use std::alloc::{AllocError, Global};

/// Plays moves on a store that has made none, and writes the lines of their answers.
fn play_all<Y: Yard>(
    store: Store<Y>,
    moves: &[Move],
    text: &mut Vec<u8>,
) -> Result<Store<Y>, AllocError>
    requires fresh { store ≡ opening store.limit }
    requires moves { AreFaultless [] moves.now }
    ensures played { IfOk result (λ last. WerePlayed store moves.now text.old.items last text.new.items) }
    ensures few { IfOk result (λ last. last.steps ≤ 65536) }
{
    let mut store = store;
    for order in moves {
        let (next, answer) = store.step(*order)?;
        store = next;
        push_answer(text, order, &answer)?;
    }
    Ok(store)
}

/// Plays a script on a map of its own, and writes what comes of it: a line for each move, then the map that the committed
/// transactions make one after another, and their number. The only error is want of memory.
pub fn run_script<Y: Yard>(alloc: Global, script: &Script) -> Result<Vec<u8>, AllocError>
    requires passes { 1 ≤ Y.MOST_PASSES }
    ensures { IfOk result (λ text. IsRunOfScript script.now text.items) }
{
    let moves = script.moves();
    let store = Store::<Y>::build(alloc, script.limit())?;
    let mut text = Vec::new(alloc);
    let store = play_all(store, moves, &mut text)?;
    let Finished { rows, commits } = store.finish()?;
    push_map(&mut text, rows.as_slice())?;
    push_end(&mut text, commits)?;
    Ok(text)
}
