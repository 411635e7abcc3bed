ghost use Rattle.grid_model.specs.Parsed.{term_of};
ghost use Rattle.rule_parse.specs.Grammar.{applied_term};
ghost use Rattle.rule_parse.specs.Readers.{level_with, empty_level, with_left, with_compared, with_nots, joined_term, compared, negated, conjoined, disjoined};
ghost use Rattle.rule_parse.specs.Seen.{level_of, with_term};
ghost use Rattle.std.specs.Prelude.{◌≡◌, [], ◌∷◌, None, IfOk, option_map};

use grid_model::{Expr, Form, Operator};
use std::alloc::{AllocError, Global};
use std::mem;

/// What waits for its right operand between two parentheses, from the operators that bind least to those that bind
/// most.
#[derive(Drop)]
pub struct Level {
    pub or_left: Option<Expr>,
    pub and_left: Option<Expr>,
    /// The places of `!`.
    pub nots: Vec<u64>,
    pub compared: Option<(Operator, Expr)>,
    pub join_left: Option<Expr>,
}

/// An operator with its two operands.
fn applied(alloc: Global, operator: Operator, left: Expr, right: Expr) -> Result<Expr, AllocError>
    ensures { IfOk result (λ e. term_of e ≡ applied_term operator (term_of left) (term_of right)) }
{
    let at = left.at;
    let left = Box::new(alloc, left)?;
    let right = Box::new(alloc, right)?;
    Ok(Expr {
        at,
        form: Form::Applied(operator, left, right),
    })
}

/// An operand with what waits on its left, if something does.
fn with_left(
    alloc: Global,
    operator: Operator,
    left: Option<Expr>,
    right: Expr,
) -> Result<Expr, AllocError>
    ensures { IfOk result (λ e. term_of e ≡ with_left operator (option_map term_of left) (term_of right)) }
{
    match left {
        None => Ok(right),
        Some(left) => applied(alloc, operator, left, right),
    }
}

/// An operand with the comparison on its left, if there is one.
fn with_compared(
    alloc: Global,
    left: Option<(Operator, Expr)>,
    right: Expr,
) -> Result<Expr, AllocError>
    ensures { IfOk result (λ e. term_of e ≡ with_compared (option_map with_term left) (term_of right)) }
{
    match left {
        None => Ok(right),
        Some((operator, left)) => applied(alloc, operator, left, right),
    }
}

/// `!` at this place, with its operand.
fn not_at(alloc: Global, at: u64, operand: Expr) -> Result<Expr, AllocError>
    ensures { IfOk result (λ e. term_of e ≡ with_nots (at ∷ []) (term_of operand)) }
{
    let operand = Box::new(alloc, operand)?;
    Ok(Expr {
        at,
        form: Form::Not(operand),
    })
}

/// An operand with `!` at each of these places before it.
fn with_nots(alloc: Global, nots: Vec<u64>, operand: Expr) -> Result<Expr, AllocError>
    ensures { IfOk result (λ e. term_of e ≡ with_nots nots.items (term_of operand)) }
{
    let mut nots = nots;
    let mut term = operand;
    while let Some(at) = nots.pop() {
        term = not_at(alloc, at, term)?;
    }
    Ok(term)
}

impl Level {
    /// Nothing waits. It takes no memory.
    pub fn new(alloc: Global) -> Level
        ensures { level_of result ≡ empty_level }
    {
        Level {
            or_left: None,
            and_left: None,
            nots: Vec::new(alloc),
            compared: None,
            join_left: None,
        }
    }

    /// The operand with what binds at least as much as `++`, which waits no longer.
    pub fn joined(&mut self, alloc: Global, operand: Expr) -> Result<Expr, AllocError>
        ensures value { IfOk result (λ e. term_of e ≡ joined_term (level_of self.old) (term_of operand)) }
        ensures left { IfOk result (λ e. level_of self.new
            ≡ level_with (level_of self.old).or_left (level_of self.old).and_left (level_of self.old).nots (level_of self.old).compared None) }
    {
        with_left(alloc, Operator::Join, self.join_left.take(), operand)
    }

    /// The operand with what binds at least as much as `==`, which waits no longer.
    pub fn compared(&mut self, alloc: Global, operand: Expr) -> Result<Expr, AllocError>
        ensures value { IfOk result (λ e. term_of e ≡ compared (level_of self.old) (term_of operand)) }
        ensures left { IfOk result (λ e. level_of self.new
            ≡ level_with (level_of self.old).or_left (level_of self.old).and_left (level_of self.old).nots None None) }
    {
        let right = self.joined(alloc, operand)?;
        with_compared(alloc, self.compared.take(), right)
    }

    /// The operand with what binds at least as much as `!`, which waits no longer.
    pub fn negated(&mut self, alloc: Global, operand: Expr) -> Result<Expr, AllocError>
        ensures value { IfOk result (λ e. term_of e ≡ negated (level_of self.old) (term_of operand)) }
        ensures left { IfOk result (λ e. level_of self.new
            ≡ level_with (level_of self.old).or_left (level_of self.old).and_left [] None None) }
    {
        let right = self.compared(alloc, operand)?;
        with_nots(alloc, mem::replace(&mut self.nots, Vec::new(alloc)), right)
    }

    /// The operand with what binds at least as much as `&&`, which waits no longer.
    pub fn conjoined(&mut self, alloc: Global, operand: Expr) -> Result<Expr, AllocError>
        ensures value { IfOk result (λ e. term_of e ≡ conjoined (level_of self.old) (term_of operand)) }
        ensures left { IfOk result (λ e. level_of self.new ≡ level_with (level_of self.old).or_left None [] None None) }
    {
        let right = self.negated(alloc, operand)?;
        with_left(alloc, Operator::And, self.and_left.take(), right)
    }

    /// The operand with all that waits, so that nothing waits any longer.
    pub fn disjoined(&mut self, alloc: Global, operand: Expr) -> Result<Expr, AllocError>
        ensures value { IfOk result (λ e. term_of e ≡ disjoined (level_of self.old) (term_of operand)) }
        ensures left { IfOk result (λ e. level_of self.new ≡ empty_level) }
    {
        let right = self.conjoined(alloc, operand)?;
        with_left(alloc, Operator::Or, self.or_left.take(), right)
    }
}
