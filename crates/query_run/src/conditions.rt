ghost use Rattle.std.specs.Prelude.{◌≡◌, IfOk};
ghost use Rattle.std.specs.List.{list_all};
ghost use Rattle.grid_model.specs.Applying.{IsMade};
ghost use Rattle.grid_model.specs.QueryRows.{comes_before, meets, passes_op};
ghost use Rattle.grid_model.specs.RowGrids.{grid_of};
ghost use Rattle.grid_model.specs.Wildcards.{matches_sql};
ghost use Rattle.query_run.specs.Parts.{CanBeShown, combination_of};
ghost use Rattle.query_run.specs.Stages.{meets_at};

use crate::cells::cell;
use crate::parts::Parts;
use crate::stages::{Stage, is_of_stage};
use grid_model::{Cond, Op};
use grid_tables::Tables;
use rule_like::like_sql;
use std::alloc::{AllocError, Global};

/// Whether a row meets each of these conditions that is tested at this stage. Fails for want of memory alone.
pub(crate) fn meets_stage(
    alloc: Global,
    tables: &Tables,
    parts: &Parts,
    conds: &[Cond],
    stage: Stage,
) -> Result<bool, AllocError>
    requires made { IsMade tables.now }
    requires shown { CanBeShown tables.now parts.now }
    ensures { IfOk result (λ holds. holds ≡ list_all (meets_at (grid_of tables.now) stage (combination_of tables.now parts.now)) conds.now) }
{
    for cond in conds {
        if !meets_at(alloc, tables, parts, cond, stage)? {
            return Ok(false);
        }
    }
    Ok(true)
}

// Whether a row meets a condition, or that is tested at another stage.
fn meets_at(
    alloc: Global,
    tables: &Tables,
    parts: &Parts,
    cond: &Cond,
    stage: Stage,
) -> Result<bool, AllocError>
    requires made { IsMade tables.now }
    requires shown { CanBeShown tables.now parts.now }
    ensures { IfOk result (λ holds. holds ≡ meets_at (grid_of tables.now) stage (combination_of tables.now parts.now) cond.now) }
{
    if !is_of_stage(stage, cond.column) {
        return Ok(true);
    }
    meets(alloc, tables, parts, cond)
}

// Whether a row meets a condition.
fn meets(alloc: Global, tables: &Tables, parts: &Parts, cond: &Cond) -> Result<bool, AllocError>
    requires made { IsMade tables.now }
    requires shown { CanBeShown tables.now parts.now }
    ensures { IfOk result (λ holds. holds ≡ meets (grid_of tables.now) (combination_of tables.now parts.now) cond.now) }
{
    let text = cell(alloc, tables, parts, cond.column)?;
    Ok(passes(
        cond.op,
        cond.column.is_number(),
        text.as_slice(),
        cond.literal.as_slice(),
    ))
}

// What an operator says of two texts, which may both be numbers in decimal.
fn passes(op: Op, numbers: bool, text: &[u8], literal: &[u8]) -> bool
    ensures { result ≡ passes_op op numbers text.now literal.now }
{
    match op {
        Op::Equal => text.cmp(literal).is_eq(),
        Op::NotEqual => !text.cmp(literal).is_eq(),
        Op::Less => comes_before(numbers, text, literal),
        Op::Greater => comes_before(numbers, literal, text),
        Op::AtMost => !comes_before(numbers, literal, text),
        Op::AtLeast => !comes_before(numbers, text, literal),
        Op::Like => is_like(text, literal),
        Op::NotLike => !is_like(text, literal),
    }
}

// Whether a text comes before another by its bytes. Of two numbers in decimal the shorter one comes first.
fn comes_before(numbers: bool, one: &[u8], other: &[u8]) -> bool
    ensures { result ≡ comes_before numbers one.now other.now }
{
    if numbers && one.len() != other.len() {
        return one.len() < other.len();
    }
    one.cmp(other).is_lt()
}

// Whether the whole text matches the pattern.
fn is_like(text: &[u8], pattern: &[u8]) -> bool
    ensures { result ≡ matches_sql pattern.now text.now }
{
    like_sql(text, pattern)
}
