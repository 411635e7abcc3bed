// Runs that a line asks for.
use crate::devices::play;
use crate::escapes::unescaped;
use crate::harm::NO_HARM;
use crate::held::{Held, empty_vaults};
use crate::repeats::{Repeat, Turn, each, stops};
use crate::scene::Scene;
use crate::showing::add_run;
use grid_model::Text;
use std::alloc::{AllocError, Global};
use std::mem::replace;

/// Runs these words with the input so far, as often as it is to be done, and answers what is shown of that.
pub(crate) fn play_words(
    alloc: Global,
    scene: &mut Scene,
    words: &str,
) -> Result<String, AllocError> {
    let words = read_words(alloc, words)?;
    let input = replace(&mut scene.input, Vec::new(alloc));
    let (input, later) = match replace(&mut scene.later, None) {
        Some(first) => (first, Some(input)),
        None => (input, None),
    };
    let turn = Turn {
        words: &words,
        input: &input,
        later: later.as_deref(),
        harm: replace(&mut scene.harm, NO_HARM),
    };
    match replace(&mut scene.repeat, Repeat::Once) {
        Repeat::Once => play_once(alloc, scene, turn),
        Repeat::Each { device, from, to } => each(alloc, &scene.held, turn, device, from, to),
        Repeat::Stops => stops(alloc, &scene.held, turn),
    }
}

// Does a run, and holds what it leaves.
fn play_once(alloc: Global, scene: &mut Scene, turn: Turn<'_>) -> Result<String, AllocError> {
    let mut shown = String::new(alloc);
    let left = play(alloc, &scene.held, turn.harm, turn.words, turn.input)?;
    add_run(alloc, &mut shown, &scene.held, &left)?;
    let before = replace(&mut scene.held, left.held);
    scene.before = before.main;
    Ok(shown)
}

/// Begins the grid with the zone `tempZone` and the administrator `rods` over empty disks and so many empty stores.
pub(crate) fn begin_grid(alloc: Global, scene: &mut Scene, count: u64) -> Result<(), AllocError> {
    let held = Held {
        vaults: empty_vaults(alloc, count)?,
        ..Held::nothing(alloc)
    };
    let words = read_words(alloc, "init tempZone rods")?;
    let left = play(alloc, &held, NO_HARM, &words, b"")?;
    scene.held = left.held;
    Ok(())
}

// The words of a line, between single blanks.
fn read_words(alloc: Global, line: &str) -> Result<Vec<Text>, AllocError> {
    let mut words = Vec::new(alloc);
    if line.is_empty() {
        return Ok(words);
    }
    for word in line.split(' ') {
        words.push(Text::from_vec(unescaped(alloc, word)?))?;
    }
    Ok(words)
}
