ghost use Rattle.grid_model.specs.Checks.{params_of};
ghost use Rattle.rule_check.specs.Tables.{AddsName, CountsRules, without_places};
ghost use Rattle.std.specs.Prelude.{◌≡◌, IfOk, OnOk, length};

use grid_model::Rule;
use indexmap::IndexMap;
use std::alloc::{AllocError, Global};

/// Rules, with the number of parameters of the first of each name.
#[derive(Drop)]
pub struct RuleNames<'a> {
    pub rules: &'a [Rule],
    counts: IndexMap<&'a [u8], usize>,
    ghost counted: { CountsRules counts rules.now },
}

/// Adds the number of a name that has none yet.
fn add<'a>(
    counts: &mut IndexMap<&'a [u8], usize>,
    name: &'a [u8],
    count: usize,
) -> Result<(), AllocError>
    ensures { OnOk result (AddsName counts.old name.now count counts.new) }
{
    match counts.get(&name) {
        Some(_) => Ok(()),
        None => {
            counts.insert(name, count)?;
            Ok(())
        }
    }
}

impl<'a> RuleNames<'a> {
    /// The names of these rules. Fails for want of memory alone.
    pub fn new(alloc: Global, rules: &'a [Rule]) -> Result<RuleNames<'a>, AllocError>
        ensures { IfOk result (λ names. names.rules.now ≡ rules.now) }
    {
        let mut counts = IndexMap::new(alloc);
        for rule in rules {
            add(
                &mut counts,
                rule.name.as_slice(),
                rule.params.as_slice().len(),
            )?;
        }
        Ok(RuleNames { rules, counts })
    }

    /// How many parameters the first rule of the name has.
    pub fn params_of(&self, name: &[u8]) -> Option<usize>
        ensures { result ≡ params_of (without_places self.now.rules.now) name.now }
    {
        self.counts.get(&name).copied()
    }
}
