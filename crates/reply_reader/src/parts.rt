ghost use Rattle.std.specs.Prelude.{◌≡◌, OnOk};
ghost use Rattle.reply_reader.specs.Parts.{with_end, with_line};

use crate::lines::Line;
use grid_model::{End, Items, Mark, Passed, Reply, Text, Texts};
use std::alloc::{AllocError, Global};

/// The parts of a reply that were read so far.
#[derive(Drop)]
pub struct Parts {
    marks: Vec<Mark>,
    shown: Vec<u8>,
    passed: Vec<Passed>,
    rows: Vec<Texts>,
}

impl Parts {
    ghost use Rattle.reply_reader.specs.Parts.{reply_so_far};
    ghost use Rattle.std.specs.Prelude.{[]};

    /// None yet.
    pub fn new(alloc: Global) -> Parts
        ensures marks { (reply_so_far result).marks ≡ [] }
        ensures shown { (reply_so_far result).shown ≡ [] }
        ensures passed { (reply_so_far result).passed ≡ [] }
        ensures rows { (reply_so_far result).rows ≡ [] }
    {
        Parts {
            marks: Vec::new(alloc),
            shown: Vec::new(alloc),
            passed: Vec::new(alloc),
            rows: Vec::new(alloc),
        }
    }

    /// Adds what a line says. A mark takes away the data lines before it.
    pub fn add(&mut self, line: Line) -> Result<(), AllocError>
        ensures { OnOk result (reply_so_far self.new ≡ with_line (reply_so_far self.old) line) }
    {
        match line {
            Line::Data(bytes) => self.shown.extend_from_slice(bytes.as_slice()),
            Line::Mark(mark) => {
                self.shown.clear();
                self.marks.push(mark).map_err(AllocError::from)
            }
            Line::Passed(passed) => self.passed.push(passed).map_err(AllocError::from),
            Line::Row(words) => self.rows.push(words).map_err(AllocError::from),
            Line::End(_) => Ok(()),
        }
    }

    /// All of a reply, with its end.
    pub fn into_reply(self, end: End) -> Reply
        ensures { result ≡ with_end (reply_so_far self) end }
    {
        Reply {
            marks: Items::from_vec(self.marks),
            shown: Text::from_vec(self.shown),
            passed: Items::from_vec(self.passed),
            rows: Items::from_vec(self.rows),
            end,
        }
    }
}
