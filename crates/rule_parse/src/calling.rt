ghost use Rattle.grid_model.specs.Names.{same_text};
ghost use Rattle.grid_model.specs.Parsed.{term_of, call_of};
ghost use Rattle.rule_lex.specs.Seen.{meaning_of};
ghost use Rattle.rule_parse.specs.declared.calling.CallStage.TheVariants as stage;
ghost use Rattle.rule_parse.specs.Grammar.{is_special};
ghost use Rattle.rule_parse.specs.Readers.{calling, new_call, new_reader, in_argument, read_call, read_call_at, read_term, whole_call};
ghost use Rattle.rule_parse.specs.Seen.{calling_of, reader_of, TakesToken};
ghost use Rattle.std.specs.Prelude.{◌≡◌, [], ◌∷◌, ◌++◌, IfOk, MatchOption, map, option_map};

use crate::expressions::{Reader, Taken};
use grid_model::{Call0, Expr, Exprs, Text};
use rule_lex::{Symbol, Value};
use std::alloc::{AllocError, Global};
use std::mem;

/// What has to come next in a call.
#[derive(Clone, Copy)]
pub enum CallStage {
    /// Its name.
    Start,
    /// An opening parenthesis, or the end of a call that may stand without.
    Named,
    /// An argument, or a closing parenthesis.
    Opened,
    /// More of an argument.
    Argument,
    /// The end.
    Closed,
}

/// What is read of a call so far.
#[derive(Drop)]
pub struct Calling {
    pub stage: CallStage,
    pub at: u64,
    pub name: Text,
    pub args: Vec<Expr>,
    /// The argument that is being read.
    pub reader: Reader,
}

/// Whether two texts have the same bytes.
fn is_same(text: &[u8], other: &[u8]) -> bool
    ensures { result ≡ same_text text.now other.now }
{
    text == other
}

/// Whether a call of this name may stand without parentheses.
fn is_special(name: &[u8]) -> bool
    ensures { result ≡ is_special name.now }
{
    if is_same(name, b"nop") {
        return true;
    }
    if is_same(name, b"cut") {
        return true;
    }
    if is_same(name, b"succeed") {
        return true;
    }
    is_same(name, b"fail")
}

impl Calling {
    /// Nothing is read. It takes no memory.
    pub fn new(alloc: Global) -> Calling
        ensures { calling_of result ≡ new_call }
    {
        Calling {
            stage: CallStage::Start,
            at: 0,
            name: Text::from_vec(Vec::new(alloc)),
            args: Vec::new(alloc),
            reader: Reader::new(alloc),
        }
    }

    /// Begins a call with its name. Fails for want of memory alone.
    pub fn begin(&mut self, alloc: Global, at: u64, name: &[u8]) -> Result<(), AllocError>
        ensures { IfOk result (λ done. calling_of self.new ≡ calling stage.Named at name.now [] new_reader) }
    {
        let name = Text::copy_of(alloc, name)?;
        let begun = Calling {
            stage: CallStage::Named,
            at,
            name,
            args: Vec::new(alloc),
            reader: Reader::new(alloc),
        };
        drop(mem::replace(self, begun));
        Ok(())
    }

    /// Adds an argument.
    fn push(&mut self, alloc: Global, arg: Expr, stage: CallStage) -> Result<(), AllocError>
        ensures { IfOk result (λ completed. calling_of self.new ≡ calling stage self.old.at self.old.name
            (map term_of self.old.args.items ++ term_of arg ∷ []) new_reader) }
    {
        self.args.push(arg)?;
        self.reader.clear(alloc);
        self.stage = stage;
        Ok(())
    }

    /// Takes the next token of an argument.
    fn take_argument(&mut self, alloc: Global, at: u64, value: Value) -> Result<bool, AllocError>
        ensures { IfOk result (λ taken. TakesToken
            (in_argument self.old.at self.old.name (map term_of self.old.args.items) (read_term (reader_of self.old.reader) (at, meaning_of value.entry)))
            taken (calling_of self.new)) }
    {
        match self.reader.take(alloc, at, value)? {
            Taken::Refused => Ok(false),
            Taken::Goes => {
                self.stage = CallStage::Argument;
                Ok(true)
            }
            Taken::Comma(arg) => {
                self.push(alloc, arg, CallStage::Argument)?;
                Ok(true)
            }
            Taken::Close(arg) => {
                self.push(alloc, arg, CallStage::Closed)?;
                Ok(true)
            }
        }
    }

    /// Takes the next token. Fails for want of memory alone.
    pub fn take(&mut self, alloc: Global, at: u64, value: Value) -> Result<bool, AllocError>
        ensures { IfOk result (λ taken. TakesToken (read_call (calling_of self.old) (at, meaning_of value.entry)) taken (calling_of self.new)) }
    {
        match self.stage {
            CallStage::Start => match value {
                Value::Name(name) => {
                    self.begin(alloc, at, name)?;
                    Ok(true)
                }
                _ => Ok(false),
            },
            CallStage::Named => match value {
                Value::Symbol(Symbol::OpenParenthesis) => {
                    self.stage = CallStage::Opened;
                    Ok(true)
                }
                _ => Ok(false),
            },
            CallStage::Opened => match value {
                Value::Symbol(Symbol::CloseParenthesis) => {
                    self.stage = CallStage::Closed;
                    Ok(true)
                }
                _ => self.take_argument(alloc, at, value),
            },
            CallStage::Argument => self.take_argument(alloc, at, value),
            CallStage::Closed => Ok(false),
        }
    }

    /// The call, with what is read of it.
    fn into_call(self) -> Call0
        ensures { call_of result ≡ record { place = self.at; name = self.name; args = map term_of self.args.items } }
    {
        let Calling {
            at,
            name,
            args,
            reader,
            ..
        } = self;
        drop(reader);
        Call0 {
            name,
            args: Exprs::from_vec(args),
            at,
        }
    }

    /// The call, if it may end here. It takes no memory.
    pub fn whole(self) -> Option<Call0>
        ensures { option_map call_of result ≡ whole_call (calling_of self) }
    {
        match self.stage {
            CallStage::Named => {
                if is_special(self.name.as_slice()) {
                    Some(self.into_call())
                } else {
                    drop(self);
                    None
                }
            }
            CallStage::Closed => Some(self.into_call()),
            _ => {
                drop(self);
                None
            }
        }
    }

    /// The call, if it may end here, and then nothing is read. It takes no memory.
    pub fn finish(&mut self, alloc: Global) -> Option<Call0>
        ensures call { option_map call_of result ≡ whole_call (calling_of self.old) }
        ensures left { calling_of self.new ≡ new_call }
    {
        let calling = mem::replace(self, Calling::new(alloc));
        calling.whole()
    }
}
