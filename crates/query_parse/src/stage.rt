ghost use Rattle.std.specs.Prelude.{◌≡◌};
ghost use Rattle.query_parse.specs.Seen.{meaning};
ghost use Rattle.query_parse.specs.Stages.{step_from, is_done};

use crate::token::{Keyword, Kind, op_of};
use grid_model::{Column, Cond, Op};

/// What has to come next in a query.
#[derive(Clone, Copy)]
pub enum Stage {
    /// SELECT.
    Start,
    /// A column to show.
    Shown,
    /// A comma, WHERE or the end.
    BehindColumn,
    /// The column of a condition.
    Subject,
    /// An operator for this column.
    Operator(Column),
    /// LIKE, behind this column and NOT.
    Negated(Column),
    /// What the column is compared with.
    Literal(Column, Op),
    /// AND or the end.
    BehindCond,
}

/// What a token does at a stage.
#[derive(Drop)]
pub enum Step {
    /// It may not stand there.
    Refused,
    /// It leads to this stage.
    Next(Stage),
    /// It is a column to show.
    Show(Column),
    /// It ends this condition, which need not be one yet: a number's column may be compared with what is no number.
    Ask(Cond),
}

/// Whether a query may end at a stage.
pub fn is_done(stage: Stage) -> bool
    ensures { result ≡ is_done stage }
{
    matches!(stage, Stage::BehindColumn | Stage::BehindCond)
}

/// What a token does behind the column of a condition.
fn step_to_operator(column: Column, kind: Kind) -> Step
    ensures { result ≡ step_from (Stage.Operator column) (meaning kind) }
{
    match kind {
        Kind::Sign(sign) => Step::Next(Stage::Literal(column, op_of(sign))),
        Kind::Keyword(Keyword::Like) => Step::Next(Stage::Literal(column, Op::Like)),
        Kind::Keyword(Keyword::Not) => Step::Next(Stage::Negated(column)),
        _ => Step::Refused,
    }
}

/// What a token does at a stage.
pub fn step_from(stage: Stage, kind: Kind) -> Step
    ensures { result ≡ step_from stage (meaning kind) }
{
    match stage {
        Stage::Start => match kind {
            Kind::Keyword(Keyword::Select) => Step::Next(Stage::Shown),
            _ => Step::Refused,
        },
        Stage::Shown => match kind {
            Kind::Column(column) => Step::Show(column),
            _ => Step::Refused,
        },
        Stage::BehindColumn => match kind {
            Kind::Comma => Step::Next(Stage::Shown),
            Kind::Keyword(Keyword::Where) => Step::Next(Stage::Subject),
            _ => Step::Refused,
        },
        Stage::Subject => match kind {
            Kind::Column(column) => Step::Next(Stage::Operator(column)),
            _ => Step::Refused,
        },
        Stage::Operator(column) => step_to_operator(column, kind),
        Stage::Negated(column) => match kind {
            Kind::Keyword(Keyword::Like) => Step::Next(Stage::Literal(column, Op::NotLike)),
            _ => Step::Refused,
        },
        Stage::Literal(column, op) => match kind {
            Kind::Literal(literal) => Step::Ask(Cond {
                column,
                op,
                literal,
            }),
            _ => Step::Refused,
        },
        Stage::BehindCond => match kind {
            Kind::Keyword(Keyword::And) => Step::Next(Stage::Subject),
            _ => Step::Refused,
        },
    }
}
