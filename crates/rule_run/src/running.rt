//! Rules run for a request to their end, or as far as they come.
ghost use Rattle.std.specs.Prelude.{◌≡◌, ℕ, ◌+◌, ◌*◌, ◌^◌, ◌≤◌, [], List, None, IfOk, IsErrOf, IsTrue, map, vec_len};
ghost use Rattle.grid_outside.specs.Source.{SourceState};
ghost use Rattle.grid_model.specs.Applying.{is_user};
ghost use Rattle.grid_model.specs.Checks.{first_fault, rules_faults};
ghost use Rattle.grid_model.specs.Names.{Text as TextOf};
ghost use Rattle.grid_model.specs.Parsed.{rule_of};
ghost use Rattle.grid_model.specs.RowGrids.{grid_of, user_name};
ghost use Rattle.grid_model.specs.Rows.{Cat};
ghost use Rattle.grid_model.specs.Runs.{Request};
ghost use Rattle.grid_model.specs.Sessions.{State};
ghost use Rattle.grid_model.specs.Values.{Value};
ghost use Rattle.grid_model.specs.declared.marks.Mark.{Mark};
ghost use Rattle.grid_deed.specs.Held.{IsHeld};
ghost use Rattle.chain_core.specs.Running.{HasValues};
ghost use Rattle.chain_core.specs.Seen.{rules_of};
ghost use Rattle.rule_cond.specs.Scopes.{env_of};
ghost use Rattle.size_laws.specs.Within.{IsWithin, TakesAtMost};
ghost use Rattle.run_laws.specs.Passes.{AreReady, CallsPass, Seen};
ghost use Rattle.service_run.specs.Commands.{place_by};
ghost use Rattle.service_run.specs.declared.command.Command.{Command};
ghost use Rattle.service_run.specs.declared.ending.Ending.{Ending};
ghost use Rattle.call_laws.specs.Amid.{IsAmid, IsSetting};
ghost use Rattle.call_laws.specs.OneCall.{AreKeepable, IsKeepable};
ghost use Rattle.rule_run.specs.Asked.{IsAsked, asked_setting};
ghost use Rattle.chain_core.specs.declared.frames.Frames.{Frames as FramesOf};
ghost use Rattle.rule_run.specs.Running.{RunEnds, WaitsWith, alone_from, ended_by, point_from};

use crate::calling::begin_calls;
use chain_core::{Frames, Outcome, RuleBase};
use chain_laws::{calls_complete, machines_complete, names_complete};
use chain_run::{RunStop, run_rule};
use grid_journal::Store;
use grid_model::{Call, Text};
use grid_outside::{Ambient, Disk, Outside, Plugin, Sink};
use rule_cond::Env;
use service_run::{Command, Ending};
use std::alloc::Global;

/// Runs the rules of a point for a command, by their name, from where the machine is, which has the steps of its other point. At most as
/// many calls more are made as are left. All that is said of [`run_alone`] is so of it, but that it draws moments by the calls that it makes.
pub fn run_point<D: Disk, K: Sink, A: Ambient, P: Plugin>(
    alloc: Global,
    store: &mut Store,
    outside: &mut Outside<D, A, P>,
    sink: &mut K,
    frames: &mut Frames,
    rules: &RuleBase,
    env: &Env,
    command: &mut Command,
    name: Text,
    left: &mut u64,
) -> Result<Outcome, Ending>
    requires held { (kept : Cat) × IsHeld kept (D.disk outside.old.main) store.old }
    requires user { IsTrue (is_user store.old.cat command.old.user) }
    requires name { user_name store.old.cat command.old.user ≡ env.now.user }
    requires slots { store.old.cat.stores ≡ vec_len outside.old.stores }
    requires words { IsKeepable command.old }
    requires kept { AreKeepable command.old [] }
    requires checked { first_fault (rules_faults (map rule_of rules.now.rules)) ≡ None }
    requires ready { AreReady D.disk P.plugin K.sink (left.old * 2 ^ 65) (record { outside = outside.old; sink = sink.old }) }
    ensures runs { (source : SourceState) (at : State) (request : Request) (before : Cat) (x : Command) (text_of : List Mark → TextOf)
        (from : Seen D A P K) (taken : List Mark)
        → IsSetting (asked_setting at request before x text_of)
        → IsAmid D.disk A.ambient P.plugin K.sink source (asked_setting at request before x text_of) from
        (record { outside = outside.old; sink = sink.old }) command.old store.old taken
        → WaitsWith at request (point_from (rules_of rules.now) (env_of env.now) name frames.old (place_by store.old.cat command.old)) taken
        → IsAsked at request before x
        → RunEnds D.disk A.ambient P.plugin K.sink source at request before x text_of from (record { outside = outside.new; sink = sink.new })
        (point_from (rules_of rules.now) (env_of env.now) name frames.old (place_by store.old.cat command.old)) taken frames.new result command.new store.new }
    ensures held { IfOk result (λ outcome. (kept : Cat) × IsHeld kept (D.disk outside.new.main) store.new) }
    ensures kept { IfOk result (λ outcome. IsTrue (is_user store.new.cat command.new.user) × IsKeepable command.new × AreKeepable command.new []
        × (user_name store.new.cat command.new.user ≡ env.now.user) × (store.new.cat.stores ≡ store.old.cat.stores)) }
    ensures within { IfOk result (λ outcome. IsWithin (grid_of store.old.cat) → IsWithin (grid_of store.new.cat)) }
    ensures passes { CallsPass D.disk P.plugin K.sink (IsErrOf result Ending.Disk) (IsErrOf result Ending.Sink)
        (record { outside = outside.old; sink = sink.old }) (record { outside = outside.new; sink = sink.new }) }
    ensures drawn { (each : ℕ) → TakesAtMost (grid_of store.old.cat) each →
        outside.new.moments + left.new * each ≤ outside.old.moments + left.old * each }
{
    machines_complete();
    names_complete();
    let mut calling = begin_calls(alloc, store, outside, sink, command, *left);
    let ran = chain_run::run_point(alloc, frames, rules, env, name, &mut calling);
    *left = calling.left;
    ended_by(ran)
}

/// Runs a call of a rule or of a micro-service for a command, which is noted on main while a deed of it runs. What was done is in memory,
/// and the next commit keeps it; lines of marks that were not told yet are in the command. The session variables are those of the user of
/// the command, with no path, and the rules are checked ones.
///
/// An error ends the command: `Memory` may come at any time, `Disk` and `Sink` where one of them failed, and `Worn` where the numbers of
/// vault files or the room behind the log have run out. A command begins 4,096 steps at most, and each has one recovery at most, so twice as
/// many calls are never all made. Draws at most 2^78 moments, and at most 2^33 where the grid is
/// within its limits.
pub(crate) fn run_alone<D: Disk, K: Sink, A: Ambient, P: Plugin>(
    alloc: Global,
    store: &mut Store,
    outside: &mut Outside<D, A, P>,
    sink: &mut K,
    rules: &RuleBase,
    env: &Env,
    command: &mut Command,
    call: Call,
) -> Result<Outcome, Ending>
    requires held { (kept : Cat) × IsHeld kept (D.disk outside.old.main) store.old }
    requires user { IsTrue (is_user store.old.cat command.old.user) }
    requires name { user_name store.old.cat command.old.user ≡ env.now.user }
    requires slots { store.old.cat.stores ≡ vec_len outside.old.stores }
    requires words { IsKeepable command.old }
    requires kept { AreKeepable command.old [] }
    requires values { (vs : List Value) × HasValues call vs }
    requires checked { first_fault (rules_faults (map rule_of rules.now.rules)) ≡ None }
    requires ready { AreReady D.disk P.plugin K.sink (2 ^ 78) (record { outside = outside.old; sink = sink.old }) }
    ensures runs { (source : SourceState) (at : State) (request : Request) (before : Cat) (x : Command) (text_of : List Mark → TextOf)
        (from : Seen D A P K) (taken : List Mark)
        (vs : List Value) → IsSetting (asked_setting at request before x text_of)
        → IsAmid D.disk A.ambient P.plugin K.sink source (asked_setting at request before x text_of) from
        (record { outside = outside.old; sink = sink.old }) command.old store.old taken
        → HasValues call vs
        → WaitsWith at request (alone_from (rules_of rules.now) (env_of env.now) call vs (place_by store.old.cat command.old)) taken
        → IsAsked at request before x
        → (m : FramesOf) × RunEnds D.disk A.ambient P.plugin K.sink source at request before x text_of from (record { outside = outside.new; sink = sink.new })
        (alone_from (rules_of rules.now) (env_of env.now) call vs (place_by store.old.cat command.old)) taken m result command.new store.new }
    ensures held { IfOk result (λ outcome. (kept : Cat) × IsHeld kept (D.disk outside.new.main) store.new) }
    ensures passes { CallsPass D.disk P.plugin K.sink (IsErrOf result Ending.Disk) (IsErrOf result Ending.Sink)
        (record { outside = outside.old; sink = sink.old }) (record { outside = outside.new; sink = sink.new }) }
    ensures drawn { (each : ℕ) → TakesAtMost (grid_of store.old.cat) each → outside.new.moments ≤ outside.old.moments + 2 ^ 13 * each }
{
    machines_complete();
    calls_complete();
    let mut frames = Frames::new(alloc);
    let mut calling = begin_calls(alloc, store, outside, sink, command, 8192);
    let ran = run_rule(alloc, &mut frames, rules, env, call, &mut calling);
    ended_by(ran)
}

// How a command ends whose run came to that.
fn ended_by(ran: Result<Outcome, RunStop<Ending>>) -> Result<Outcome, Ending>
    ensures { result ≡ ended_by ran }
{
    match ran {
        Ok(outcome) => Ok(outcome),
        Err(RunStop::Memory) => Err(Ending::Memory),
        Err(RunStop::Stopped(stop)) => Err(stop),
    }
}
