ghost use Rattle.std.specs.Prelude.{◌≡◌, ℕ, ◌+◌, ◌<◌, ◌≤◌, true, None, IfOk, IsErrOf, IsTrue, Ok, map};
ghost use Rattle.std.specs.List.{list_all};
ghost use Rattle.grid_outside.specs.Source.{SourceState};
ghost use Rattle.grid_model.specs.Checks.{first_fault, rules_faults};
ghost use Rattle.grid_model.specs.Completing.{IsOfGrid};
ghost use Rattle.grid_model.specs.Deltas.{delta_fits};
ghost use Rattle.grid_model.specs.Names.{Text as TextOf};
ghost use Rattle.grid_model.specs.Orders.{shows_rules};
ghost use Rattle.grid_model.specs.Parsed.{plain_rule, rule_of};
ghost use Rattle.grid_model.specs.Runs.{Request};
ghost use Rattle.grid_model.specs.declared.deltas.Delta.TheVariants.{Rules as sets};
ghost use Rattle.grid_model.specs.declared.refusal.Refusal.{Refusal as RefusalOf};
ghost use Rattle.grid_deed.specs.Safe.{KeepWhole};
ghost use Rattle.rule_keep.specs.Kept.{IsReadSo};
ghost use Rattle.rule_parse.specs.Grammar.{SpellsRules};
ghost use Rattle.rule_parse.specs.Printed.{print_rules};
ghost use Rattle.rule_parse.specs.RuleTexts.{IsTextOf};
ghost use Rattle.run_laws.specs.Around.{around};
ghost use Rattle.run_laws.specs.Passes.{AreReady, CallsPass};
ghost use Rattle.cmd_run.specs.Rules.{BeginsToSet, SetsRules, is_line_byte};

use crate::answers::{end_text, put_text, text_shown, well};
use crate::noting::is_size;
use crate::{Ending, Server};
use chain_core::RuleBase;
use grid_model::{End, PlanError, Refusal, Rules, Text};
use grid_outside::{Ambient, Disk, Outside, Plugin, Sink};
use plan_base::is_admin;
use rule_keep::{rules_from, what_is_set_is_kept};
use rule_parse::print_rules;
use std::alloc::Global;

/// How many bytes an object may have: of a body that was to have more none is held.
const OBJECT_SIZE: u64 = 16_777_216;

/// How many bytes a text of rules may have.
const RULES_SIZE: u64 = 65_536;

impl Server {
    ghost use Rattle.cmd_run.specs.declared.server.Server.{Server};
    ghost use Rattle.cmd_run.specs.Fits.{state_of, FitsMain};
    ghost use Rattle.cmd_run.specs.Obeys.{IsRefusedAtOnce, LacksNothing, LacksRoomAlone, Obeys, Remembers};

    /// Sets the rules that a text spells, for an administrator, and answers ok: they are printed and kept in one commit, and run from then
    /// on. Where they are printed as those that there are nothing is kept. `count` is how many bytes the request's line promised.
    pub(crate) fn set_rules<D: Disk, K: Sink, A: Ambient, P: Plugin>(
        &mut self,
        alloc: Global,
        outside: &mut Outside<D, A, P>,
        sink: &mut K,
        number: u64,
        session: u8,
        count: u64,
        body: &[u8],
    ) -> Result<(), Ending>
        requires fits { FitsMain (D.disk outside.old.main) self.old }
        requires session { session < 64 }
        requires ready { AreReady D.disk P.plugin K.sink 5 (record { outside = outside.old; sink = sink.old }) }
        ensures obeys { (source : SourceState) (request : Request) → SetsRules session count body.now request →
            Obeys (around D.disk A.ambient P.plugin outside.old (K.sink sink.old) source)
            (around D.disk A.ambient P.plugin outside.new (K.sink sink.new) source)
            self.old number request result self.new }
        ensures worn { LacksRoomAlone (D.disk outside.old.main) (D.disk outside.new.main) result }
        ensures remembers { Remembers self.old.store.cat outside.old.moments (D.disk outside.old.main) (D.disk outside.new.main) }
        ensures whole { KeepWhole P.plugin outside.old.moments self.old.store.cat
            (D.disk outside.old.main) (D.disk outside.new.main) outside.old.stores.items outside.new.stores.items }
        ensures passes { CallsPass D.disk P.plugin K.sink (IsErrOf result Ending.Disk) (IsErrOf result Ending.Sink)
            (record { outside = outside.old; sink = sink.old }) (record { outside = outside.new; sink = sink.new }) }
        ensures idle { (request : Request) → SetsRules session count body.now request → IsRefusedAtOnce (state_of self.old) request →
            (outside.new.main ≡ outside.old.main) × (outside.new.stores ≡ outside.old.stores) }
        ensures drawn { outside.new.moments ≤ outside.old.moments + 5 }
    {
        let Some(user) = self.sessions.user(session) else {
            return self.say(alloc, outside, sink, number, End::Refused(Refusal::NoLogin));
        };
        let admin = is_admin(self.store.tables(), user);
        if !admin {
            return self.say(
                alloc,
                outside,
                sink,
                number,
                End::Refused(Refusal::NotAdmin),
            );
        }
        match rules_held(alloc, count, body) {
            Ok(rules) => self.take_rules(alloc, outside, sink, number, rules),
            Err(PlanError::Refused(refusal)) => {
                self.say(alloc, outside, sink, number, End::Refused(refusal))
            }
            Err(PlanError::Memory) => Err(Ending::Memory),
        }
    }

    // Takes over rules that a text spells and that are allowed, and answers ok.
    fn take_rules<D: Disk, K: Sink, A: Ambient, P: Plugin>(
        &mut self,
        alloc: Global,
        outside: &mut Outside<D, A, P>,
        sink: &mut K,
        number: u64,
        rules: Rules,
    ) -> Result<(), Ending>
        requires fits { FitsMain (D.disk outside.old.main) self.old }
        requires checked { first_fault (rules_faults (map rule_of rules)) ≡ None }
        requires spelled { (text : TextOf) × IsTextOf SpellsRules text (map rule_of rules) }
        requires ready { AreReady D.disk P.plugin K.sink 5 (record { outside = outside.old; sink = sink.old }) }
        ensures obeys { (source : SourceState) (request : Request) → BeginsToSet (state_of self.old) request (map plain_rule (map rule_of rules)) →
            Obeys (around D.disk A.ambient P.plugin outside.old (K.sink sink.old) source)
            (around D.disk A.ambient P.plugin outside.new (K.sink sink.new) source)
            self.old number request result self.new }
        ensures worn { LacksRoomAlone (D.disk outside.old.main) (D.disk outside.new.main) result }
        ensures remembers { Remembers self.old.store.cat outside.old.moments (D.disk outside.old.main) (D.disk outside.new.main) }
        ensures whole { KeepWhole P.plugin outside.old.moments self.old.store.cat
            (D.disk outside.old.main) (D.disk outside.new.main) outside.old.stores.items outside.new.stores.items }
        ensures passes { CallsPass D.disk P.plugin K.sink (IsErrOf result Ending.Disk) (IsErrOf result Ending.Sink)
            (record { outside = outside.old; sink = sink.old }) (record { outside = outside.new; sink = sink.new }) }
        ensures drawn { outside.new.moments ≤ outside.old.moments + 5 }
    {
        what_is_set_is_kept();
        let Ok(printed) = print_rules(alloc, &rules) else {
            return Err(Ending::Memory);
        };
        let Ok(base) = RuleBase::new(alloc, rules) else {
            return Err(Ending::Memory);
        };
        let kept = self.store.tables().rules();
        if printed.is_same(kept) {
            self.rules = base;
            return self.say(alloc, outside, sink, number, well(alloc));
        }
        lines_are_kept(printed.as_slice());
        let Ok(text) = end_text(alloc, number, well(alloc)) else {
            return Err(Ending::Memory);
        };
        match self.keep_rules(alloc, outside, number, printed) {
            Ok(()) => {
                self.rules = base;
                put_text(&mut outside.moments, sink, text.as_slice())
            }
            Err(ending) => Err(ending),
        }
    }

    /// Shows the text of the rules, as they are printed, to whoever is logged in to the session.
    pub(crate) fn show_rules<D: Disk, K: Sink, A: Ambient, P: Plugin>(
        &self,
        alloc: Global,
        outside: &mut Outside<D, A, P>,
        sink: &mut K,
        number: u64,
        session: u8,
    ) -> Result<(), Ending>
        requires fits { FitsMain (D.disk outside.old.main) self.now }
        requires session { session < 64 }
        requires ready { AreReady D.disk P.plugin K.sink 1 (record { outside = outside.old; sink = sink.old }) }
        ensures obeys { (source : SourceState) (request : Request) → request ≡ Ok (session, shows_rules (print_rules (state_of self.now).rules)) →
            Obeys (around D.disk A.ambient P.plugin outside.old (K.sink sink.old) source)
            (around D.disk A.ambient P.plugin outside.new (K.sink sink.new) source)
            self.now number request result self.now }
        ensures worn { LacksNothing result }
        ensures remembers { Remembers self.now.store.cat outside.old.moments (D.disk outside.old.main) (D.disk outside.new.main) }
        ensures whole { KeepWhole P.plugin outside.old.moments self.now.store.cat
            (D.disk outside.old.main) (D.disk outside.new.main) outside.old.stores.items outside.new.stores.items }
        ensures passes { CallsPass D.disk P.plugin K.sink (IsErrOf result Ending.Disk) (IsErrOf result Ending.Sink)
            (record { outside = outside.old; sink = sink.old }) (record { outside = outside.new; sink = sink.new }) }
        ensures rows { outside.new.main ≡ outside.old.main }
        ensures stores { outside.new.stores ≡ outside.old.stores }
        ensures drawn { outside.new.moments ≤ outside.old.moments + 1 }
    {
        let Some(_) = self.sessions.user(session) else {
            return self.say(alloc, outside, sink, number, End::Refused(Refusal::NoLogin));
        };
        let Ok(rules) = Text::copy_of(alloc, self.store.tables().rules().as_slice()) else {
            return Err(Ending::Memory);
        };
        let Ok(text) = text_shown(alloc, number, rules) else {
            return Err(Ending::Memory);
        };
        put_text(&mut outside.moments, sink, text.as_slice())
    }
}

// The rules that the text spells of which this is held, where the request's line promised so many bytes of it.
fn rules_held(alloc: Global, count: u64, held: &[u8]) -> Result<Rules, PlanError>
    ensures is { (session : ℕ) (request : Request) → (its : SetsRules session count held.now request) → IsReadSo its.rules result }
    ensures of_grid { (r : RefusalOf) → IsErrOf result (PlanError.Refused r) → IsOfGrid r }
    ensures checked { IfOk result (λ rs. first_fault (rules_faults (map rule_of rs)) ≡ None) }
    ensures spelled { IfOk result (λ rs. IsTextOf SpellsRules held.now (map rule_of rs)) }
{
    if count > OBJECT_SIZE {
        let limit = RULES_SIZE;
        return Err(PlanError::Refused(Refusal::TooLarge { limit }));
    }
    rules_from(alloc, held)
}

// A text of such bytes may stand in the catalogue as that of its rules. It does nothing.
fn lines_are_kept(text: &[u8])
    ensures { list_all is_line_byte text.now ≡ true → IsTrue (delta_fits (sets text.now)) }
{
    is_size(text.len());
}
