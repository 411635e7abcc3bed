// Runs that are done again and again over the same, where each time something else goes wrong.
use crate::devices::{Left, Written, play};
use crate::harm::{Device, Harm, NO_HARM};
use crate::held::Held;
use crate::showing::{add_run, add_stand};
use grid_model::Text;
use std::alloc::{AllocError, Global};

/// How often a run is done.
#[derive(Clone, Copy)]
pub(crate) enum Repeat {
    Once,
    /// For each of these calls of the device, which fails then.
    Each { device: Device, from: u64, to: u64 },
    /// Once, and then one run for each image of main that a stop in it may leave.
    Stops,
}

/// A run and the input of the one that is done behind it, if any.
#[derive(Clone, Copy)]
pub(crate) struct Turn<'a> {
    pub(crate) words: &'a [Text],
    pub(crate) input: &'a [u8],
    pub(crate) later: Option<&'a [u8]>,
    pub(crate) harm: Harm,
}

// What was shown at places that follow one another, and is shown once for those at which it is the same.
#[derive(Drop)]
struct Blocks {
    shown: String,
    first: u128,
    last: u128,
    block: String,
}

impl Blocks {
    fn new(alloc: Global) -> Blocks {
        Blocks {
            shown: String::new(alloc),
            first: 0,
            last: 0,
            block: String::new(alloc),
        }
    }

    // Adds what is shown at this place.
    fn add(&mut self, place: u128, block: String) -> Result<(), AllocError> {
        if self.block.as_str() != block.as_str() {
            self.end()?;
            self.first = place;
            self.block = block;
        }
        self.last = place;
        Ok(())
    }

    // Shows what was added last.
    fn end(&mut self) -> Result<(), AllocError> {
        if self.block.is_empty() {
            return Ok(());
        }
        if self.first == self.last {
            write!(self.shown, "- at {}\n", self.first)?;
        } else {
            write!(self.shown, "- at {} to {}\n", self.first, self.last)?;
        }
        self.shown.push_str(self.block.as_str())
    }
}

/// What is shown of a run for each of these calls of the device, and of the run behind it over what it left.
pub(crate) fn each(
    alloc: Global,
    held: &Held,
    turn: Turn<'_>,
    device: Device,
    from: u64,
    to: u64,
) -> Result<String, AllocError> {
    let mut blocks = Blocks::new(alloc);
    for call in from..to.saturating_add(1) {
        let harm = turn.harm.with(device, call);
        let block = block_of(alloc, held, Turn { harm, ..turn })?;
        blocks.add(u128::from(call), block)?;
    }
    blocks.end()?;
    Ok(blocks.shown)
}

// What is shown of a run and the one behind it.
fn block_of(alloc: Global, held: &Held, turn: Turn<'_>) -> Result<String, AllocError> {
    let mut block = String::new(alloc);
    let left = play(alloc, held, turn.harm, turn.words, turn.input)?;
    add_run(alloc, &mut block, held, &left)?;
    if let Some(input) = turn.later {
        add_later(alloc, &mut block, &left.held, turn.words, input)?;
    }
    Ok(block)
}

// Adds what is shown of a run over what was left.
fn add_later(
    alloc: Global,
    block: &mut String,
    held: &Held,
    words: &[Text],
    input: &[u8],
) -> Result<(), AllocError> {
    block.push_str("then\n")?;
    let left = play(alloc, held, NO_HARM, words, input)?;
    add_run(alloc, block, held, &left)
}

/// What is shown of the run behind it for each image of main that a stop in this run may leave, by the moments of its calls.
pub(crate) fn stops(alloc: Global, held: &Held, turn: Turn<'_>) -> Result<String, AllocError> {
    let mut blocks = Blocks::new(alloc);
    let left = play(alloc, held, turn.harm, turn.words, turn.input)?;
    add_run(alloc, &mut blocks.shown, held, &left)?;
    add_moments(&mut blocks.shown, &left.written)?;
    let mut image = held.copy()?;
    for written in &left.written {
        stop_in(alloc, &mut blocks, &image, turn, written)?;
        image.main = with_bytes(alloc, &image.main, written.at, &written.bytes)?;
    }
    blocks.end()?;
    Ok(blocks.shown)
}

// Adds the moments at which main was written or synced.
fn add_moments(shown: &mut String, written: &[Written]) -> Result<(), AllocError> {
    shown.push_str("main was written or synced at")?;
    for written in written {
        write!(shown, " {}", written.moment)?;
    }
    shown.push('\n')?;
    Ok(())
}

// Adds what is shown for what a stop within a write may leave, where so many bytes were done: the first ones, or the last
// ones behind zeros.
fn stop_in(
    alloc: Global,
    blocks: &mut Blocks,
    held: &Held,
    turn: Turn<'_>,
    written: &Written,
) -> Result<(), AllocError> {
    for count in 0..written.bytes.len().saturating_add(1) {
        let (first, rest) = written.bytes.split_at(count.min(written.bytes.len()));
        let main = with_bytes(alloc, &held.main, written.at, first)?;
        add_image(alloc, blocks, held, main, turn, written.moment)?;
        let behind = written.at.saturating_add(first.len() as u64);
        let main = with_bytes(alloc, &held.main, behind, rest)?;
        add_image(alloc, blocks, held, main, turn, written.moment)?;
    }
    Ok(())
}

// Adds what is shown of this main, and of a run over it.
fn add_image(
    alloc: Global,
    blocks: &mut Blocks,
    held: &Held,
    main: Vec<u8>,
    turn: Turn<'_>,
    moment: u128,
) -> Result<(), AllocError> {
    let image = Held {
        main,
        ..held.copy()?
    };
    let mut block = String::from_str(alloc, "left")?;
    add_stand(alloc, &mut block, &image)?;
    block.push('\n')?;
    add_later(
        alloc,
        &mut block,
        &image,
        turn.words,
        turn.later.unwrap_or(b""),
    )?;
    blocks.add(moment, block)
}

// The bytes with these ones from this place on, and zeros where there was nothing before it.
fn with_bytes(alloc: Global, held: &[u8], at: u64, bytes: &[u8]) -> Result<Vec<u8>, AllocError> {
    let mut image = held.to_vec(alloc)?;
    for _ in held.len() as u64..at {
        image.push(0)?;
    }
    for (index, byte) in bytes.iter().enumerate() {
        match image.get_mut((at as usize).saturating_add(index)) {
            Some(old) => *old = *byte,
            None => image.push(*byte)?,
        }
    }
    Ok(image)
}
