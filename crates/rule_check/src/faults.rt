ghost use Rattle.grid_model.specs.Checks.{cause_rank, comes_first, fault_if};
ghost use Rattle.rule_check.specs.Faults.{fault_of, fault_so_far, least};
ghost use Rattle.std.specs.Prelude.{◌≡◌, ◌∷◌, [], None, Some};

use grid_model::RuleCause;

/// Something that is wrong, and where.
#[derive(Clone, Copy)]
pub struct Fault {
    pub at: u64,
    pub cause: RuleCause,
}

/// The fault that counts of those that were found so far.
#[derive(Drop)]
pub struct Findings {
    pub first: Option<Fault>,
}

/// The place of a cause in the order of causes.
fn rank(cause: RuleCause) -> u8
    ensures { result ≡ cause_rank cause }
{
    match cause {
        RuleCause::Token => 0,
        RuleCause::Grammar => 1,
        RuleCause::Taken => 2,
        RuleCause::Param => 3,
        RuleCause::TooManyRules => 4,
        RuleCause::Arity => 5,
        RuleCause::Unknown => 6,
        RuleCause::Recovery => 7,
        RuleCause::Variable => 8,
        RuleCause::Typing => 9,
        RuleCause::Literal => 10,
    }
}

/// Whether a fault counts before another.
fn comes_first(fault: Fault, other: Fault) -> bool
    ensures { result ≡ comes_first (fault_of fault) (fault_of other) }
{
    fault.at < other.at || (fault.at == other.at && rank(fault.cause) < rank(other.cause))
}

impl Findings {
    /// Nothing was found.
    pub fn new() -> Findings
        ensures { fault_so_far result ≡ None }
    {
        Findings { first: None }
    }

    /// Adds a fault.
    fn add(&mut self, fault: Fault)
        ensures { fault_so_far self.new ≡ least (fault_so_far self.old) (fault_of fault ∷ []) }
    {
        match self.first {
            None => self.first = Some(fault),
            Some(first) => {
                if comes_first(fault, first) {
                    self.first = Some(fault);
                }
            }
        }
    }

    /// Adds a fault, where there is one.
    pub fn note(&mut self, is_fault: bool, at: u64, cause: RuleCause)
        ensures { fault_so_far self.new ≡ least (fault_so_far self.old) (fault_if is_fault at cause) }
    {
        if is_fault {
            self.add(Fault { at, cause });
        }
    }
}
