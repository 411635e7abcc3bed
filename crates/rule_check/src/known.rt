ghost use Rattle.grid_model.specs.Checks.{is_one_of, repeats};
ghost use Rattle.rule_check.specs.Tables.{AddsText, HasTexts, is_in_set};
ghost use Rattle.rule_check.specs.Words.{words};
ghost use Rattle.std.specs.Prelude.{◌≡◌, IfOk, not};

use crate::tables::is_one_of;
use grid_model::Text;
use indexmap::IndexSet;
use std::alloc::{AllocError, Global};

/// What an expression may name.
#[derive(Drop)]
pub struct Known<'a> {
    pub params: &'a [Text],
    pub sessions: &'a [&'a [u8]],
    /// Whether a parameter is there twice.
    pub is_repeated: bool,
    set: IndexSet<&'a [u8]>,
    ghost same: { HasTexts set params.now },
    ghost repeated: { is_repeated ≡ repeats params.now },
}

/// Adds a text, and says whether it is new.
fn add<'a>(set: &mut IndexSet<&'a [u8]>, text: &'a [u8]) -> Result<bool, AllocError>
    ensures fresh { IfOk result (λ fresh. fresh ≡ not (is_in_set set.old text.now)) }
    ensures added { IfOk result (λ fresh. AddsText set.old text.now set.new) }
{
    let (_, fresh) = set.insert_full(text)?;
    Ok(fresh)
}

impl<'a> Known<'a> {
    /// These parameters and session variables. Fails for want of memory alone.
    pub fn new(
        alloc: Global,
        params: &'a [Text],
        sessions: &'a [&'a [u8]],
    ) -> Result<Known<'a>, AllocError>
        ensures params { IfOk result (λ known. known.params.now ≡ params.now) }
        ensures sessions { IfOk result (λ known. words known.sessions.now ≡ words sessions.now) }
    {
        let mut set = IndexSet::new(alloc);
        let mut is_repeated = false;
        for param in params {
            let fresh = add(&mut set, param.as_slice())?;
            is_repeated = is_repeated || !fresh;
        }
        Ok(Known {
            params,
            sessions,
            is_repeated,
            set,
        })
    }

    /// Whether it is one of the parameters.
    pub fn has_param(&self, name: &[u8]) -> bool
        ensures { result ≡ is_one_of self.now.params.now name.now }
    {
        self.set.contains(&name)
    }

    /// Whether it is one of the session variables.
    pub fn has_session(&self, name: &[u8]) -> bool
        ensures { result ≡ is_one_of (words self.now.sessions.now) name.now }
    {
        is_one_of(self.sessions, name)
    }
}
