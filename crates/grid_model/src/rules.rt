use crate::{Items, Text, Texts};

/// An operator between two operands of a rule's expression.
#[derive(Clone, Copy, Debug, PartialEq, Eq)]
pub enum Operator {
    /// `||`
    Or,
    /// `&&`
    And,
    /// `==`
    Equal,
    /// `!=`
    NotEqual,
    /// `<`
    Less,
    /// `>`
    Greater,
    /// `<=`
    AtMost,
    /// `>=`
    AtLeast,
    /// `like`
    Like,
    /// `++`
    Join,
}

/// What an expression is, without its place.
#[cycle(expression)]
#[derive(Debug, Drop)]
#[derive_where(PartialEq, Eq)]
pub enum Form {
    /// A text, with each escaped byte for itself and without its quotes.
    Text(Text),
    /// A number.
    Number(i64),
    /// `true` or `false`.
    Truth(bool),
    /// A parameter: the place of its own token, and its name without the `*`.
    Param(#[derive_where(skip(EqHashOrd))] u64, Text),
    /// A session variable: the place of its own token, and its name without the `$`.
    Session(#[derive_where(skip(EqHashOrd))] u64, Text),
    /// `!` and its operand.
    Not(Box<Expr>),
    /// An operator and its two operands.
    Applied(Operator, Box<Expr>, Box<Expr>),
}

/// An expression of a rule. Places have no part in equality.
#[cycle(expression)]
#[derive(Debug, Drop)]
#[derive_where(PartialEq, Eq)]
pub struct Expr {
    /// The place of its first token, parentheses round it among its tokens.
    #[derive_where(skip(EqHashOrd))]
    pub at: u64,
    pub form: Form,
}

/// A list of expressions, as the arguments of a call are.
pub type Exprs = Items<Expr>;

/// A call as it stands in a text, with arguments that are still to be computed.
#[derive(Debug, Drop)]
#[derive_where(PartialEq, Eq)]
pub struct Call0 {
    pub name: Text,
    pub args: Exprs,
    /// The place of its first token.
    #[derive_where(skip(EqHashOrd))]
    pub at: u64,
}

/// A step of a rule: a call, and the call that recovers from it, if there is one.
#[derive(Debug, Drop)]
#[derive_where(PartialEq, Eq)]
pub struct Step {
    pub call: Call0,
    pub recovery: Option<Call0>,
    /// The place of its first token.
    #[derive_where(skip(EqHashOrd))]
    pub at: u64,
}

/// A list of steps.
pub type Steps = Items<Step>;

/// A rule: its name, its parameters without their `*`, its condition, if it has one, and its steps.
#[derive(Debug, Drop)]
#[derive_where(PartialEq, Eq)]
pub struct Rule {
    pub name: Text,
    pub params: Texts,
    pub cond: Option<Expr>,
    pub steps: Steps,
    /// The place of its first token.
    #[derive_where(skip(EqHashOrd))]
    pub at: u64,
}

/// A list of rules, in the order of their text.
pub type Rules = Items<Rule>;
