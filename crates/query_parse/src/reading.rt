ghost use Rattle.std.specs.Prelude.{◌≡◌, ◌↔◌, false, IsTrue, IfOk, MatchOption};
ghost use Rattle.grid_model.specs.QueryText.{Fits};
ghost use Rattle.query_parse.specs.Seen.{meaning};
ghost use Rattle.query_parse.specs.Stages.{new_query, is_done, LeadsByToken, LeadsNowhere};

use crate::stage::{Stage, Step, is_done, step_from};
use crate::token::Kind;
use grid_model::{Column, Columns, Cond, Conds, Query, read_number};
use std::alloc::{AllocError, Global};
use std::marker::Model;

/// What is read of a query so far.
#[derive(Drop)]
pub struct Reading {
    stage: Stage,
    columns: Vec<Column>,
    conds: Vec<Cond>,
}

impl Model for Reading {
    ghost use Rattle.query_parse.specs.Stages.{QueryProgress};

    ghost Value = { QueryProgress };

    ghost view = { λ r. record { stage = r.stage; columns = r.columns.items; conds = r.conds.items } };
}

/// Whether a column of numbers is compared with a number, if it is compared. Fails for want of memory alone.
fn fits(alloc: Global, cond: &Cond) -> Result<bool, AllocError>
    ensures { IfOk result (λ yes. IsTrue yes ↔ Fits cond.now.column cond.now.op cond.now.literal) }
{
    if !cond.column.is_number() {
        return Ok(true);
    }
    if !cond.op.is_comparison() {
        return Ok(true);
    }
    match read_number(alloc, cond.literal.as_slice())? {
        Some(_) => Ok(true),
        None => Ok(false),
    }
}

impl Reading {
    /// Nothing is read. It takes no memory.
    pub fn new(alloc: Global) -> Reading
        ensures { result ≡ new_query }
    {
        Reading {
            stage: Stage::Start,
            columns: Vec::new(alloc),
            conds: Vec::new(alloc),
        }
    }

    /// Reads the next token, and says whether it may stand there. Fails for want of memory alone.
    pub fn take(&mut self, alloc: Global, kind: Kind) -> Result<bool, AllocError>
        ensures taken { IfOk result (λ taken. IsTrue taken → LeadsByToken self.old (meaning kind) self.new) }
        ensures refused { IfOk result (λ taken. taken ≡ false → LeadsNowhere self.old (meaning kind)) }
    {
        match step_from(self.stage, kind) {
            Step::Refused => Ok(false),
            Step::Next(stage) => {
                self.stage = stage;
                Ok(true)
            }
            Step::Show(column) => {
                self.columns.push(column)?;
                self.stage = Stage::BehindColumn;
                Ok(true)
            }
            Step::Ask(cond) => {
                if !fits(alloc, &cond)? {
                    return Ok(false);
                }
                self.conds.push(cond)?;
                self.stage = Stage::BehindCond;
                Ok(true)
            }
        }
    }

    /// The query, if it may end here. It takes no memory.
    pub fn finish(self) -> Option<Query>
        ensures { MatchOption result
            (is_done self.stage ≡ false)
            (λ q. IsTrue (is_done self.stage) × (q ≡ record { columns = self.columns; conds = self.conds })) }
    {
        if !is_done(self.stage) {
            return None;
        }
        Some(Query {
            columns: Columns::from_vec(self.columns),
            conds: Conds::from_vec(self.conds),
        })
    }
}
