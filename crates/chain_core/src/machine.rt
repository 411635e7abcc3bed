//! The machine: what begins, and what each event leads to.
ghost use Rattle.chain_core.specs.Answers.{asked, IsUsable, IsKind, Tells};
ghost use Rattle.chain_core.specs.Moves.{at_call, at_point};
ghost use Rattle.chain_core.specs.Running.{BeginsCall, Continues, LeavesFewer, Starts};
ghost use Rattle.chain_core.specs.Seen.{rules_of};
ghost use Rattle.chain_core.specs.Settling.{Settles};
ghost use Rattle.chain_core.specs.declared.kinds.Kind.{Kind};
ghost use Rattle.std.specs.Prelude.{◌≡◌, IfOk, OnOk};

use crate::actions::{Action, Event, Outcome, Start};
use crate::base::RuleBase;
use crate::begins::{called, control_of};
use crate::events::one_more;
use crate::frames::{Control, Frames, MOST_STEPS};
use crate::kinds::kind_of;
use grid_model::{Call, Calls, Failure, Text, Texts};
use std::alloc::{AllocError, Global};

impl Frames {
    /// The rules of the name are called.
    fn at_point(&mut self, alloc: Global, rules: &RuleBase, name: Text)
        ensures { self.new ≡ at_point (rules_of rules.now) self.old name }
    {
        let args = Texts::from_vec(Vec::new(alloc));
        self.waiting.clear();
        self.undo = Calls::from_vec(Vec::new(alloc));
        self.by_itself = false;
        self.set(called(rules, 0, Call { name, args }));
    }

    /// The call is done by itself.
    fn at_call(&mut self, alloc: Global, rules: &RuleBase, call: Call) -> Result<(), AllocError>
        ensures { OnOk result ((k : Kind) × IsKind call k × (self.new ≡ at_call (rules_of rules.now) self.old call k)) }
    {
        let kind = kind_of(alloc, &call)?;
        self.begun = one_more(self.begun)?;
        self.waiting.clear();
        self.undo = Calls::from_vec(Vec::new(alloc));
        self.by_itself = true;
        if MOST_STEPS < self.begun {
            self.set(Control::Ended(Outcome::Halted(Failure::Spent)));
        } else {
            self.set(control_of(rules, 0, call, kind));
        }
        Ok(())
    }

    /// What is to be run is called.
    fn begin(&mut self, alloc: Global, rules: &RuleBase, what: Start) -> Result<(), AllocError>
        ensures { OnOk result (Starts (rules_of rules.now) self.old what self.new) }
    {
        match what {
            Start::Point(name) => {
                self.at_point(alloc, rules, name);
                Ok(())
            }
            Start::Exec(call) => self.at_call(alloc, rules, call),
        }
    }

    /// Goes on until it waits: what it waits for.
    fn ask(&mut self, alloc: Global, rules: &RuleBase) -> Result<Action, AllocError>
        ensures asked { IfOk result (λ action. action ≡ asked self.new) }
        ensures settles { Settles (rules_of rules.now) self.old self.new }
    {
        self.settle(alloc, rules);
        self.action(alloc)
    }

    /// Begins a point, or a call by itself, whose arguments are short: the first action. The count of steps is kept, so one
    /// value serves all points of a command. Fails for want of memory alone, and then nothing is said of the machine.
    pub fn start(
        &mut self,
        alloc: Global,
        rules: &RuleBase,
        what: Start,
    ) -> Result<Action, AllocError>
        ensures asked { IfOk result (λ action. action ≡ asked self.new) }
        ensures tells { IfOk result (λ action. Tells (rules_of rules.now) self.new action) }
        ensures usable { OnOk result (IsUsable (rules_of rules.now) self.new) }
        ensures begins { OnOk result (BeginsCall (rules_of rules.now) self.old what self.new) }
    {
        self.begin(alloc, rules, what)?;
        self.ask(alloc, rules)
    }

    /// Takes what came of the last action: the next one. An event that answers another action leaves the machine as it is.
    /// Fails for want of memory alone, and then nothing is said of the machine.
    pub fn next(
        &mut self,
        alloc: Global,
        rules: &RuleBase,
        event: Event,
    ) -> Result<Action, AllocError>
        requires { IsUsable (rules_of rules.now) self.old }
        ensures asked { IfOk result (λ action. action ≡ asked self.new) }
        ensures tells { IfOk result (λ action. Tells (rules_of rules.now) self.new action) }
        ensures usable { OnOk result (IsUsable (rules_of rules.now) self.new) }
        ensures continues { OnOk result (Continues (rules_of rules.now) self.old event self.new) }
        ensures ends { OnOk result (LeavesFewer (rules_of rules.now) self.old event self.new) }
    {
        self.take(alloc, rules, event)?;
        self.ask(alloc, rules)
    }
}
