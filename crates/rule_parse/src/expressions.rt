ghost use Rattle.rule_lex.specs.Seen.{meaning_of};
ghost use Rattle.rule_lex.specs.Tokens.{RuleToken as Meaning};
ghost use Rattle.rule_lex.specs.declared.token.Symbol.TheVariants as sign;
ghost use Rattle.rule_parse.specs.Grammar.{placed_term};
ghost use Rattle.rule_parse.specs.Readers.{behind_operand, goes, new_reader, read_operand, read_operator, read_term, read_comparison};
ghost use Rattle.rule_parse.specs.Seen.{comparison_of, level_of, outer_of, reader_of, TakesTerm};
ghost use Rattle.grid_model.specs.Parsed.{shape_of, term_of};
ghost use Rattle.std.specs.Prelude.{◌≡◌, None, IfOk};

use crate::levels::Level;
use grid_model::{Expr, Form, Operator, Text};
use rule_lex::{Symbol, Value};
use std::alloc::{AllocError, Global};
use std::mem;

/// How many operators an argument or a condition has at most.
const MOST_OPERATORS: usize = 128;

/// How deep the parentheses of an argument or a condition are at most.
const DEEPEST_PARENTHESES: usize = 256;

/// A parenthesis that is open, and what waits before it.
#[derive(Drop)]
pub struct Enclosing {
    pub at: u64,
    pub level: Level,
}

/// What is read of an expression so far.
#[derive(Drop)]
pub struct Reader {
    /// The parentheses that are open, the outermost first.
    pub outer: Vec<Enclosing>,
    pub level: Level,
    /// How many operators there are.
    pub count: usize,
    /// What stands before the next operator, if one may come.
    pub operand: Option<Expr>,
}

/// What a token did to an expression.
#[derive(Drop)]
pub enum Taken {
    /// It may not stand there.
    Refused,
    /// It is one more token of it.
    Goes,
    /// It is a comma behind this expression.
    Comma(Expr),
    /// It is a closing parenthesis behind this expression.
    Close(Expr),
}

/// The comparison of a word or a sign.
fn comparison_of(symbol: Symbol) -> Option<Operator>
    ensures { result ≡ comparison_of symbol }
{
    match symbol {
        Symbol::Equal => Some(Operator::Equal),
        Symbol::NotEqual => Some(Operator::NotEqual),
        Symbol::Less => Some(Operator::Less),
        Symbol::Greater => Some(Operator::Greater),
        Symbol::AtMost => Some(Operator::AtMost),
        Symbol::AtLeast => Some(Operator::AtLeast),
        Symbol::Like => Some(Operator::Like),
        _ => None,
    }
}

impl Reader {
    /// Nothing is read. It takes no memory.
    pub fn new(alloc: Global) -> Reader
        ensures { reader_of result ≡ new_reader }
    {
        Reader {
            outer: Vec::new(alloc),
            level: Level::new(alloc),
            count: 0,
            operand: None,
        }
    }

    /// Then nothing is read. It takes no memory.
    pub fn clear(&mut self, alloc: Global)
        ensures { reader_of self.new ≡ new_reader }
    {
        drop(mem::replace(self, Reader::new(alloc)));
    }

    /// Takes an operand without operators.
    fn hold(&mut self, at: u64, form: Form) -> Taken
        requires { self.old.operand ≡ None }
        ensures { TakesTerm (goes (behind_operand (outer_of self.old.outer.items) (level_of self.old.level) self.old.count
            (placed_term at (shape_of form)))) result (reader_of self.new) }
    {
        self.operand = Some(Expr { at, form });
        Taken::Goes
    }

    /// Takes a `!` where an operand is wanted.
    fn negate(&mut self, at: u64) -> Result<Taken, AllocError>
        requires { self.old.operand ≡ None }
        ensures { IfOk result (λ taken. TakesTerm
            (read_operand (outer_of self.old.outer.items) (level_of self.old.level) self.old.count at (Meaning.symbol sign.Not)) taken (reader_of self.new)) }
    {
        if self.level.compared.is_some() {
            return Ok(Taken::Refused);
        }
        if self.level.join_left.is_some() {
            return Ok(Taken::Refused);
        }
        if self.count >= MOST_OPERATORS {
            return Ok(Taken::Refused);
        }
        self.level.nots.push(at)?;
        self.count += 1;
        Ok(Taken::Goes)
    }

    /// Takes an opening parenthesis where an operand is wanted.
    fn open(&mut self, alloc: Global, at: u64) -> Result<Taken, AllocError>
        requires { self.old.operand ≡ None }
        ensures { IfOk result (λ taken. TakesTerm (read_operand (outer_of self.old.outer.items) (level_of self.old.level) self.old.count at
            (Meaning.symbol sign.OpenParenthesis)) taken (reader_of self.new)) }
    {
        if self.outer.len() >= DEEPEST_PARENTHESES {
            return Ok(Taken::Refused);
        }
        let level = mem::replace(&mut self.level, Level::new(alloc));
        self.outer.push(Enclosing { at, level })?;
        Ok(Taken::Goes)
    }

    /// Takes a token where an operand is wanted.
    fn take_operand(&mut self, alloc: Global, at: u64, value: Value) -> Result<Taken, AllocError>
        requires { self.old.operand ≡ None }
        ensures { IfOk result (λ taken. TakesTerm
            (read_operand (outer_of self.old.outer.items) (level_of self.old.level) self.old.count at (meaning_of value.entry)) taken (reader_of self.new)) }
    {
        match value {
            Value::Text(bytes) => Ok(self.hold(at, Form::Text(Text::from_vec(bytes)))),
            Value::Number(number) => Ok(self.hold(at, Form::Number(number))),
            Value::Param(name) => {
                let name = Text::copy_of(alloc, name)?;
                Ok(self.hold(at, Form::Param(at, name)))
            }
            Value::Session(name) => {
                let name = Text::copy_of(alloc, name)?;
                Ok(self.hold(at, Form::Session(at, name)))
            }
            Value::Symbol(Symbol::True) => Ok(self.hold(at, Form::Truth(true))),
            Value::Symbol(Symbol::False) => Ok(self.hold(at, Form::Truth(false))),
            Value::Symbol(Symbol::Not) => self.negate(at),
            Value::Symbol(Symbol::OpenParenthesis) => self.open(alloc, at),
            _ => Ok(Taken::Refused),
        }
    }

    /// Takes `++` behind an operand.
    fn join(&mut self, alloc: Global, operand: Expr) -> Result<Taken, AllocError>
        requires { self.old.operand ≡ None }
        ensures { IfOk result (λ taken. TakesTerm (read_operator (outer_of self.old.outer.items) (level_of self.old.level) self.old.count (term_of operand)
            (Meaning.symbol sign.Join)) taken (reader_of self.new)) }
    {
        if self.count >= MOST_OPERATORS {
            return Ok(Taken::Refused);
        }
        let left = self.level.joined(alloc, operand)?;
        self.level.join_left = Some(left);
        self.count += 1;
        Ok(Taken::Goes)
    }

    /// Takes a comparison behind an operand.
    fn compare(
        &mut self,
        alloc: Global,
        operand: Expr,
        operator: Operator,
    ) -> Result<Taken, AllocError>
        requires { self.old.operand ≡ None }
        ensures { IfOk result (λ taken. TakesTerm
            (read_comparison (outer_of self.old.outer.items) (level_of self.old.level) self.old.count (term_of operand) operator) taken (reader_of self.new)) }
    {
        if self.level.compared.is_some() {
            return Ok(Taken::Refused);
        }
        if self.count >= MOST_OPERATORS {
            return Ok(Taken::Refused);
        }
        let left = self.level.joined(alloc, operand)?;
        self.level.compared = Some((operator, left));
        self.count += 1;
        Ok(Taken::Goes)
    }

    /// Takes `&&` behind an operand.
    fn and(&mut self, alloc: Global, operand: Expr) -> Result<Taken, AllocError>
        requires { self.old.operand ≡ None }
        ensures { IfOk result (λ taken. TakesTerm (read_operator (outer_of self.old.outer.items) (level_of self.old.level) self.old.count (term_of operand)
            (Meaning.symbol sign.And)) taken (reader_of self.new)) }
    {
        if self.count >= MOST_OPERATORS {
            return Ok(Taken::Refused);
        }
        let left = self.level.conjoined(alloc, operand)?;
        self.level.and_left = Some(left);
        self.count += 1;
        Ok(Taken::Goes)
    }

    /// Takes `||` behind an operand.
    fn or(&mut self, alloc: Global, operand: Expr) -> Result<Taken, AllocError>
        requires { self.old.operand ≡ None }
        ensures { IfOk result (λ taken. TakesTerm (read_operator (outer_of self.old.outer.items) (level_of self.old.level) self.old.count (term_of operand)
            (Meaning.symbol sign.Or)) taken (reader_of self.new)) }
    {
        if self.count >= MOST_OPERATORS {
            return Ok(Taken::Refused);
        }
        let left = self.level.disjoined(alloc, operand)?;
        self.level.or_left = Some(left);
        self.count += 1;
        Ok(Taken::Goes)
    }

    /// Takes a closing parenthesis behind an operand.
    fn close(&mut self, alloc: Global, operand: Expr) -> Result<Taken, AllocError>
        requires { self.old.operand ≡ None }
        ensures { IfOk result (λ taken. TakesTerm (read_operator (outer_of self.old.outer.items) (level_of self.old.level) self.old.count (term_of operand)
            (Meaning.symbol sign.CloseParenthesis)) taken (reader_of self.new)) }
    {
        let whole = self.level.disjoined(alloc, operand)?;
        match self.outer.pop() {
            None => Ok(Taken::Close(whole)),
            Some(outer) => {
                self.level = outer.level;
                Ok(self.hold(outer.at, whole.form))
            }
        }
    }

    /// Takes a comma behind an operand.
    fn end(&mut self, alloc: Global, operand: Expr) -> Result<Taken, AllocError>
        requires { self.old.operand ≡ None }
        ensures { IfOk result (λ taken. TakesTerm (read_operator (outer_of self.old.outer.items) (level_of self.old.level) self.old.count (term_of operand)
            (Meaning.symbol sign.Comma)) taken (reader_of self.new)) }
    {
        if !self.outer.is_empty() {
            return Ok(Taken::Refused);
        }
        Ok(Taken::Comma(self.level.disjoined(alloc, operand)?))
    }

    /// Takes a word or a sign behind an operand.
    fn take_operator(
        &mut self,
        alloc: Global,
        operand: Expr,
        symbol: Symbol,
    ) -> Result<Taken, AllocError>
        requires { self.old.operand ≡ None }
        ensures { IfOk result (λ taken. TakesTerm (read_operator (outer_of self.old.outer.items) (level_of self.old.level) self.old.count (term_of operand)
            (Meaning.symbol symbol)) taken (reader_of self.new)) }
    {
        match symbol {
            Symbol::Join => self.join(alloc, operand),
            Symbol::And => self.and(alloc, operand),
            Symbol::Or => self.or(alloc, operand),
            Symbol::CloseParenthesis => self.close(alloc, operand),
            Symbol::Comma => self.end(alloc, operand),
            _ => match comparison_of(symbol) {
                Some(operator) => self.compare(alloc, operand, operator),
                None => Ok(Taken::Refused),
            },
        }
    }

    /// Takes the next token. Fails for want of memory alone.
    pub fn take(&mut self, alloc: Global, at: u64, value: Value) -> Result<Taken, AllocError>
        ensures { IfOk result (λ taken. TakesTerm (read_term (reader_of self.old) (at, meaning_of value.entry)) taken (reader_of self.new)) }
    {
        match self.operand.take() {
            None => self.take_operand(alloc, at, value),
            Some(operand) => match value {
                Value::Symbol(symbol) => self.take_operator(alloc, operand, symbol),
                _ => Ok(Taken::Refused),
            },
        }
    }
}
