//! An operation or a query whose point has rules.
ghost use Rattle.std.specs.Prelude.{◌≡◌, ◌+◌, ◌^◌, ◌≤◌, [], Err, IsErrOf, IsTrue, List, None, Some, false, codes, map, vec_len, ℕ, ◌*◌};
ghost use Rattle.grid_outside.specs.Source.{SourceState};
ghost use Rattle.grid_model.specs.Applying.{is_user};
ghost use Rattle.grid_model.specs.Checks.{first_fault, rules_faults};
ghost use Rattle.grid_model.specs.Parsed.{rule_of};
ghost use Rattle.grid_model.specs.RowGrids.{grid_of, user_name};
ghost use Rattle.grid_model.specs.Runs.{Request};
ghost use Rattle.grid_model.specs.Sessions.{State};
ghost use Rattle.grid_deed.specs.Held.{IsHeld};
ghost use Rattle.size_laws.specs.Within.{TakesAtMost};
ghost use Rattle.chain_core.specs.Rest.{steps_begun, took_stop};
ghost use Rattle.chain_core.specs.Seen.{rules_of};
ghost use Rattle.point_laws.specs.Works.{Work};
ghost use Rattle.row_run.specs.Verbs.{HasGoodWords};
ghost use Rattle.run_laws.specs.Passes.{AreReady, CallsPass};
ghost use Rattle.run_laws.specs.Steps.{CallsNoRules};
ghost use Rattle.service_run.specs.declared.ending.Ending.{Ending};
ghost use Rattle.call_laws.specs.OneCall.{AreKeepable, IsKeepable};
ghost use Rattle.rule_run.specs.Asked.{IsAsked};
ghost use Rattle.rule_run.specs.Executing.{Executes};
ghost use Rattle.work_run.specs.Names.{point_name, rules_name};
ghost use Rattle.work_run.specs.Verbs.{HasWork, WorksAs};
ghost use Rattle.work_run.specs.Works.{DoesSo, MakesFilesBy};

use crate::before::run_before;
use crate::naming::PointNames;
use crate::pointing::variables_of;
use chain_core::{Frames, RuleBase};
use chain_laws::names_complete;
use grid_journal::Store;
use grid_model::Verb;
use grid_outside::{Ambient, Disk, Outside, Plugin, Sink};
use point_laws::{pre_ends, works_end_by_rows, works_send_behind, works_take_in_order};
use service_run::{Command, Ending};
use std::alloc::{AllocError, Global};

/// Does the work of a verb for a request, between the rules of these names, and tells its reply. `body` is what a put puts.
pub(crate) fn do_ruled<D: Disk, K: Sink, A: Ambient, P: Plugin>(
    alloc: Global,
    store: &mut Store,
    outside: &mut Outside<D, A, P>,
    sink: &mut K,
    frames: Frames,
    rules: &RuleBase,
    command: Command,
    verb: &Verb,
    body: &[u8],
    names: PointNames,
) -> Result<(), Ending>
    requires held { IsHeld store.old.cat (D.disk outside.old.main) store.old }
    requires user { IsTrue (is_user store.old.cat command.user) }
    requires keepable { IsKeepable command × AreKeepable command [] }
    requires slots { store.old.cat.stores ≡ vec_len outside.old.stores }
    requires words { HasGoodWords verb.now }
    requires verb { HasWork verb.now body.now }
    requires named { point_name verb.now ≡ Some names.operation }
    requires pre { names.pre ≡ rules_name names.operation (codes "_pre") }
    requires post { names.post ≡ rules_name names.operation (codes "_post") }
    requires frames { (steps_begun frames ≡ 0) × (took_stop frames ≡ false) }
    requires checked { first_fault (rules_faults (map rule_of rules.now.rules)) ≡ None }
    requires ready { AreReady D.disk P.plugin K.sink (2 ^ 79) (record { outside = outside.old; sink = sink.old }) }
    ensures executes { (source : SourceState) (at : State) (request : Request) (w : Work) → IsAsked at request store.old.cat command →
        WorksAs verb.now body.now w → DoesSo at request (user_name store.old.cat command.user) w → at.rules ≡ rules_of rules.now →
        (CallsNoRules at request → ⊥) → MakesFilesBy request w →
        Executes D.disk A.ambient P.plugin K.sink source at request store.old.cat command
        (record { outside = outside.old; sink = sink.old }) (record { outside = outside.new; sink = sink.new }) result store.new }
    ensures passes { CallsPass D.disk P.plugin K.sink (IsErrOf result Ending.Disk) (IsErrOf result Ending.Sink)
        (record { outside = outside.old; sink = sink.old }) (record { outside = outside.new; sink = sink.new }) }
    ensures drawn { (each : ℕ) → TakesAtMost (grid_of store.old.cat) each → outside.new.moments ≤ outside.old.moments + 2 ^ 14 * each }
{
    names_complete();
    pre_ends();
    works_end_by_rows();
    works_send_behind();
    works_take_in_order();
    let env = match variables_of(alloc, store.tables(), command.user, verb, body) {
        Ok(env) => env,
        Err(AllocError) => {
            drop(command);
            drop(frames);
            drop(names);
            return Err(Ending::Memory);
        }
    };
    run_before(
        alloc, store, outside, sink, frames, rules, env, command, verb, body, names.pre, names.post,
    )
}
