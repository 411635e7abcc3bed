//! How requests end by what came of their calls.
ghost use Rattle.std.specs.Prelude.{◌≡◌, [], IsTrue};
ghost use Rattle.std.specs.List.{list_all};
ghost use Rattle.grid_model.specs.Working.{end_of, failure_of};
ghost use Rattle.grid_model.specs.Writable.{is_word, is_writable_end};
ghost use Rattle.chain_core.specs.Rest.{outcome_of};
ghost use Rattle.work_run.specs.Pointed.{point_end, rows_told};

use chain_core::Outcome;
use grid_model::{End, Failure, Rows};
use std::alloc::Global;

/// How the rules of a point failed, if they did. A point without a rule that applies is well.
pub(crate) fn failure_of(outcome: Outcome) -> Option<Failure>
    ensures { result ≡ failure_of (outcome_of outcome) }
{
    match outcome {
        Outcome::EndedWell => None,
        Outcome::NoneApplied => None,
        Outcome::Failed(failure) => Some(failure),
        Outcome::Halted(failure) => Some(failure),
    }
}

/// How a request ends whose rules before the operation failed so.
pub(crate) fn failed_before(failure: Failure) -> End
    ensures is { result ≡ point_end End.PreFailed failure }
    ensures writable { IsTrue (is_writable_end result) }
{
    match failure {
        Failure::Stopped => End::Stopped,
        other => End::PreFailed(other),
    }
}

/// How a request ends whose rules after the operation failed so.
pub(crate) fn failed_after(failure: Failure) -> End
    ensures is { result ≡ point_end End.PostFailed failure }
    ensures writable { IsTrue (is_writable_end result) }
{
    match failure {
        Failure::Stopped => End::Stopped,
        other => End::PostFailed(other),
    }
}

/// How a request ends whose operation failed so.
pub(crate) fn failed(failure: Failure) -> End
    ensures is { result ≡ end_of failure }
    ensures writable { IsTrue (is_writable_end result) }
{
    match failure {
        Failure::Refused(refusal) => End::Refused(refusal),
        Failure::Stopped => End::Stopped,
        Failure::Code(number) => End::Failed(Failure::Code(number)),
        Failure::NoRule => End::Failed(Failure::NoRule),
        Failure::Depth => End::Failed(Failure::Depth),
        Failure::Spent => End::Failed(Failure::Spent),
        Failure::LongText => End::Failed(Failure::LongText),
    }
}

/// The rows that a request shows which ends so and found these: none where it was stopped. It takes no memory.
pub(crate) fn rows_told(alloc: Global, end: &End, rows: Rows) -> Rows
    ensures is { result ≡ rows_told end.now rows }
    ensures words { IsTrue (list_all (list_all is_word) rows) → IsTrue (list_all (list_all is_word) result) }
{
    match end {
        End::Stopped => no_rows(alloc),
        _ => rows,
    }
}

/// No rows. It takes no memory.
pub(crate) fn no_rows(alloc: Global) -> Rows
    ensures is { result ≡ [] }
    ensures words { IsTrue (list_all (list_all is_word) result) }
{
    Rows::from_vec(Vec::new(alloc))
}
