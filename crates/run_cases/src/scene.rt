// What a case has come to.
use crate::harm::{Harm, NO_HARM};
use crate::held::{Held, empty_vaults};
use crate::repeats::Repeat;
use std::alloc::{AllocError, Global};
use std::mem::replace;

/// What the devices hold and what main held before the last run, the input of the next run and of the one behind it, what
/// goes wrong in it, how often it is done, and what was kept by a name.
#[derive(Drop)]
pub(crate) struct Scene {
    pub(crate) held: Held,
    pub(crate) before: Vec<u8>,
    pub(crate) input: Vec<u8>,
    pub(crate) later: Option<Vec<u8>>,
    pub(crate) harm: Harm,
    pub(crate) repeat: Repeat,
    kept: Vec<(String, Held)>,
}

impl Scene {
    /// Empty disks and one empty store, and nothing kept.
    pub(crate) fn new(alloc: Global) -> Result<Scene, AllocError> {
        Ok(Scene {
            held: Held {
                vaults: empty_vaults(alloc, 1)?,
                ..Held::nothing(alloc)
            },
            before: Vec::new(alloc),
            input: Vec::new(alloc),
            later: None,
            harm: NO_HARM,
            repeat: Repeat::Once,
            kept: Vec::new(alloc),
        })
    }

    /// Begins anew, with all that was kept.
    pub(crate) fn begin(&mut self, alloc: Global) -> Result<(), AllocError> {
        let kept = replace(&mut self.kept, Vec::new(alloc));
        *self = Scene {
            kept,
            ..Scene::new(alloc)?
        };
        Ok(())
    }

    /// Keeps what is held by this name.
    pub(crate) fn keep(&mut self, alloc: Global, name: &str) -> Result<(), AllocError> {
        let entry = (String::from_str(alloc, name)?, self.held.copy()?);
        self.kept.push(entry)?;
        Ok(())
    }

    /// Holds what was last kept by this name, and says whether there was any.
    pub(crate) fn hold(&mut self, name: &str) -> Result<bool, AllocError> {
        for (kept, held) in self.kept.iter().rev() {
            if kept.as_str() == name {
                self.held = held.copy()?;
                return Ok(true);
            }
        }
        Ok(false)
    }
}
