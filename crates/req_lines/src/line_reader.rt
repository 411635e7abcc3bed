ghost use Rattle.std.specs.Prelude.{◌≡◌, ℕ, ◌+◌, ◌-◌, ◌^◌, ◌<◌, ◌≤◌, List, [], ◌++◌, length, take, drop, min, IsTrue, IfOk, OnOk, OnErr, IsErrOf};
ghost use Rattle.std.specs.Bool.{MatchBool};
ghost use Rattle.grid_outside.specs.Fault.{HasCause, Rose};
ghost use Rattle.grid_model.specs.Lines.{IsLine};
ghost use Rattle.req_lines.specs.Hearing.{Stops};
ghost use Rattle.req_lines.specs.Reading.{TakesLine, TakesRest, input, Fills, ReadsLine, ReadsPart, Passes, PassesPart, Took, TookAll};

use crate::lines::newline_in;
use crate::requests::ReadError;
use grid_outside::{Source, SourceFault};
use std::alloc::{AllocError, Global};
use std::marker::Model;

/// How many bytes of an input are read, but for one more that shows that there are more.
pub(crate) const MOST: u64 = 1 << 48;

/// How many bytes are asked of the source at once.
pub(crate) const BLOCK: usize = 1 << 16;

/// How many bytes of a line are held: one more than a request line has at most.
pub(crate) const HELD: usize = 4097;

/// How the reading of a line ended.
#[derive(Clone, Copy, Debug, PartialEq, Eq)]
pub(crate) enum Ended {
    /// A newline ended the line.
    Line,
    /// The input ended.
    End,
    /// The input goes on past the bytes that are read.
    Long,
}

/// Reads the lines of a source. Bytes are taken from the source in blocks, and no block is taken while a whole line
/// is left of the last one. Contracts see the bytes of the block that are left, and how many were taken in all.
#[derive(Drop)]
pub(crate) struct LineReader {
    block: Vec<u8>,
    start: usize,
    end: usize,
    taken: u64,
}

impl Model for LineReader {
    ghost use Rattle.std.specs.Prelude.{◌≡◌, ◌-◌, ◌^◌, ◌+◌, ◌≤◌, length, take, drop};
    ghost use Rattle.req_lines.specs.Reading.{Reader};

    ghost Value = { Reader };

    ghost view = { λ r. record { unread = take (r.end - r.start) (drop r.start r.block.items); taken = r.taken } };

    ghost invariant = { λ r. (length r.block.items ≡ 65536) × (r.start ≤ r.end) × (r.end ≤ 65536) × (r.taken ≤ 2 ^ 48 + 1) };
}

/// How the passing over of bytes ended.
#[derive(Clone, Copy, Debug, PartialEq, Eq)]
pub(crate) enum Passed {
    /// All were passed over.
    Whole,
    /// The input ended within them, when so many had come.
    Short { have: u64 },
    /// The input goes on past the bytes that are read.
    Long,
}

// What a read of a block gave.
#[derive(Clone, Copy, Debug, PartialEq, Eq)]
enum Filled {
    More,
    End,
    Long,
}

impl LineReader {
    /// Nothing is read yet. Fails for want of memory alone.
    pub(crate) fn new(alloc: Global) -> Result<LineReader, AllocError>
        ensures unread { IfOk result (λ reader. reader.unread ≡ []) }
        ensures taken { IfOk result (λ reader. reader.taken ≡ 0) }
    {
        Ok(LineReader {
            block: vec![in alloc; 0; BLOCK]?,
            start: 0,
            end: 0,
            taken: 0,
        })
    }

    // Adds what is left of the block up to its first newline to the line, and answers whether there is one.
    fn take_line(&mut self, line: &mut Vec<u8>) -> Result<bool, AllocError>
        requires { length line.old.items ≤ 4097 }
        ensures found { IfOk result (λ found. MatchBool found
            (TakesLine self.old line.old.items self.new line.new.items)
            (TakesRest self.old line.old.items self.new line.new.items)) }
        ensures taken { self.new.taken ≡ self.old.taken }
    {
        let rest = &self.block[self.start..self.end];
        match newline_in(rest) {
            Some(length) => {
                add_held(line, &rest[..length])?;
                self.start += length + 1;
                Ok(true)
            }
            None => {
                add_held(line, rest)?;
                self.start = self.end;
                Ok(false)
            }
        }
    }

    // Takes a block of the source, where nothing is left of the last one.
    fn fill<S: Source>(&mut self, source: &mut S) -> Result<Filled, SourceFault>
        requires empty { self.old.unread ≡ [] }
        requires most { self.old.taken ≤ 2 ^ 48 }
        ensures fills { IfOk result (λ filled. Fills (input self.old (S.source source.old)) filled (input self.new (S.source source.new))) }
        ensures failed { OnErr result ((self.new ≡ self.old) × (IsTrue (S.source source.old).tells → (S.source source.new).left ≡ (S.source source.old).left)) }
        ensures tells { (S.source source.new).tells ≡ (S.source source.old).tells }
        ensures cause { HasCause (S.source source.old).faults (S.source source.new).faults result }
    {
        if self.taken == MOST {
            return self.look_past(source);
        }
        let room = (MOST - self.taken).min(BLOCK as u64) as usize;
        self.start = 0;
        self.end = 0;
        let count = read_block(source, &mut self.block, room)?;
        self.end = count;
        self.taken += count as u64;
        if count == 0 {
            return Ok(Filled::End);
        }
        Ok(Filled::More)
    }

    // Looks whether there are more bytes than are read.
    fn look_past<S: Source>(&mut self, source: &mut S) -> Result<Filled, SourceFault>
        requires empty { self.old.unread ≡ [] }
        requires most { self.old.taken ≡ 2 ^ 48 }
        ensures fills { IfOk result (λ filled. Fills (input self.old (S.source source.old)) filled (input self.new (S.source source.new))) }
        ensures failed { OnErr result ((self.new ≡ self.old) × (IsTrue (S.source source.old).tells → (S.source source.new).left ≡ (S.source source.old).left)) }
        ensures tells { (S.source source.new).tells ≡ (S.source source.old).tells }
        ensures cause { HasCause (S.source source.old).faults (S.source source.new).faults result }
    {
        let mut more = [0u8; 1];
        if source.read(&mut more)? == 0 {
            return Ok(Filled::End);
        }
        self.taken += 1;
        Ok(Filled::Long)
    }

    /// Reads to the next newline, to the end of the input, or to the last byte that is read, and leaves what is held
    /// of the line. Where a newline is left of the block the source is not asked. `Source` comes only where the source
    /// failed.
    pub(crate) fn read_line<S: Source>(
        &mut self,
        source: &mut S,
        line: &mut Vec<u8>,
    ) -> Result<Ended, ReadError>
        requires { self.old.taken ≤ 2 ^ 48 }
        ensures reads { IfOk result (λ ended. ReadsLine (input self.old (S.source source.old)) ended (input self.new (S.source source.new)) line.new.items) }
        ensures at_once { ¬ IsLine self.old.unread → (source.new ≡ source.old) × (self.new.taken ≡ self.old.taken) }
        ensures failed { IsErrOf result ReadError.Source → ReadsPart (input self.old (S.source source.old)) (S.source source.new) }
        ensures stopped { IsErrOf result ReadError.Memory → Stops (input self.old (S.source source.old)) (S.source source.new) }
        ensures tells { (S.source source.new).tells ≡ (S.source source.old).tells }
        ensures later { (S.source source.old).faults ≤ (S.source source.new).faults }
        ensures cause { IsErrOf result ReadError.Source → Rose (S.source source.old).faults (S.source source.new).faults }
    {
        line.clear();
        'parts: loop {
            if self.take_line(line)? {
                return Ok(Ended::Line);
            }
            match self.fill(source)? {
                Filled::More => {}
                Filled::End => return Ok(Ended::End),
                Filled::Long => return Ok(Ended::Long),
            }
        }
    }

    /// Passes over so many bytes. Where all are left of the block the source is not asked. It fails only where the
    /// source failed.
    pub(crate) fn pass<S: Source>(
        &mut self,
        source: &mut S,
        count: u64,
    ) -> Result<Passed, SourceFault>
        requires { self.old.taken ≤ 2 ^ 48 }
        ensures passes { IfOk result (λ how. (body : List ℕ) ×
            Passes (input self.old (S.source source.old)) count how (input self.new (S.source source.new)) body) }
        ensures at_once { count ≤ length self.old.unread → source.new ≡ source.old }
        ensures failed { OnErr result (PassesPart (input self.old (S.source source.old)) count (S.source source.new)) }
        ensures tells { (S.source source.new).tells ≡ (S.source source.old).tells }
        ensures cause { HasCause (S.source source.old).faults (S.source source.new).faults result }
        ensures later { (S.source source.old).faults ≤ (S.source source.new).faults }
    {
        let mut left = count;
        'parts: loop {
            left = self.pass_held(left);
            if left == 0 {
                return Ok(Passed::Whole);
            }
            match self.fill(source)? {
                Filled::More => {}
                Filled::End => return Ok(Passed::Short { have: count - left }),
                Filled::Long => return Ok(Passed::Long),
            }
        }
    }

    /// Reads so many bytes, or those that there are, and leaves them in the body. Room for all is made at once. Where all
    /// are left of the block the source is not asked. `Source` comes only where the source failed.
    pub(crate) fn read_body<S: Source>(
        &mut self,
        source: &mut S,
        count: u64,
        body: &mut Vec<u8>,
    ) -> Result<Passed, ReadError>
        requires { self.old.taken ≤ 2 ^ 48 }
        ensures reads { IfOk result (λ how. Passes (input self.old (S.source source.old)) count how (input self.new (S.source source.new)) body.new.items) }
        ensures at_once { count ≤ length self.old.unread → source.new ≡ source.old }
        ensures failed { IsErrOf result ReadError.Source → PassesPart (input self.old (S.source source.old)) count (S.source source.new) }
        ensures stopped { IsErrOf result ReadError.Memory → Stops (input self.old (S.source source.old)) (S.source source.new) }
        ensures tells { (S.source source.new).tells ≡ (S.source source.old).tells }
        ensures later { (S.source source.old).faults ≤ (S.source source.new).faults }
        ensures cause { IsErrOf result ReadError.Source → Rose (S.source source.old).faults (S.source source.new).faults }
    {
        body.clear();
        body.reserve(count as usize)?;
        let mut left = count;
        'parts: loop {
            left = self.take_held(left, body)?;
            if left == 0 {
                return Ok(Passed::Whole);
            }
            match self.fill(source)? {
                Filled::More => {}
                Filled::End => return Ok(Passed::Short { have: count - left }),
                Filled::Long => return Ok(Passed::Long),
            }
        }
    }

    // Adds at most so many of the bytes that are left of the block, and answers how many are still to come.
    fn take_held(&mut self, count: u64, body: &mut Vec<u8>) -> Result<u64, AllocError>
        ensures unread { OnOk result (self.new.unread ≡ drop (min count (length self.old.unread)) self.old.unread) }
        ensures taken { self.new.taken ≡ self.old.taken }
        ensures left { IfOk result (λ left. left ≡ count - min count (length self.old.unread)) }
        ensures added { OnOk result (body.new.items ≡ body.old.items ++ take (min count (length self.old.unread)) self.old.unread) }
    {
        let rest = &self.block[self.start..self.end];
        let room = count.min(rest.len() as u64) as usize;
        body.extend_from_slice(&rest[..room])?;
        Ok(self.pass_held(count))
    }

    // Passes over at most so many of the bytes that are left of the block, and answers how many are still to be passed.
    fn pass_held(&mut self, count: u64) -> u64
        ensures unread { self.new.unread ≡ drop (min count (length self.old.unread)) self.old.unread }
        ensures taken { self.new.taken ≡ self.old.taken }
        ensures left { result ≡ count - min count (length self.old.unread) }
    {
        let held = (self.end - self.start) as u64;
        let passed = count.min(held);
        self.start += passed as usize;
        count - passed
    }
}

// Takes at most so many bytes of the source into the front of the block.
fn read_block<S: Source>(
    source: &mut S,
    block: &mut [u8],
    room: usize,
) -> Result<usize, SourceFault>
    requires some { 0 < room }
    requires fits { room ≤ length block.old }
    ensures count { IfOk result (λ n. n ≤ room) }
    ensures took { IfOk result (λ n. Took (take n block.new) (S.source source.old) (S.source source.new)) }
    ensures at_end { IfOk result (λ n. n ≡ 0 → TookAll [] (S.source source.old) (S.source source.new)) }
    ensures failed { OnErr result (IsTrue (S.source source.old).tells → (S.source source.new).left ≡ (S.source source.old).left) }
    ensures tells { (S.source source.new).tells ≡ (S.source source.old).tells }
    ensures cause { HasCause (S.source source.old).faults (S.source source.new).faults result }
{
    let count = source.read(&mut block[..room])?;
    Ok(count)
}

// Adds as many of the bytes as may be held.
fn add_held(line: &mut Vec<u8>, bytes: &[u8]) -> Result<(), AllocError>
    requires { length line.old.items ≤ 4097 }
    ensures added { OnOk result (line.new.items ≡ take 4097 (line.old.items ++ bytes.now)) }
    ensures failed { OnErr result (line.new.items ≡ line.old.items) }
{
    let room = (HELD - line.len()).min(bytes.len());
    line.extend_from_slice(&bytes[..room])?;
    Ok(())
}
