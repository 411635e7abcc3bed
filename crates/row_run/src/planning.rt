ghost use Rattle.std.specs.Prelude.{IsTrue};
ghost use Rattle.grid_journal.specs.Journal.{AreSpelled};
ghost use Rattle.grid_model.specs.Applying.{IsMade, is_user};
ghost use Rattle.grid_model.specs.RowGrids.{user_name};
ghost use Rattle.row_run.specs.Planned.{PlansVerb};
ghost use Rattle.row_run.specs.Verbs.{HasGoodWords};

use crate::saying::{plan_said, plan_unsaid};
use grid_model::{Deltas, PlanError, Refusal, ResourceKind, Verb};
use grid_tables::Tables;
use plan_coll::{
    plan_addmember, plan_chmod, plan_inherit, plan_mkdir, plan_mkgroup, plan_mkuser, plan_move,
    plan_rmdir, plan_rmmember,
};
use plan_drop::{plan_rm, plan_trim};
use plan_tree::{plan_addchild, plan_mkresc, plan_modresc};
use std::alloc::Global;

/// The plan of the verb's operation for the user of this id. A verb that does more than change rows is refused as unknown.
pub(crate) fn plan(
    alloc: Global,
    tables: &Tables,
    user: u32,
    verb: &Verb,
) -> Result<Deltas, PlanError>
    requires made { IsMade tables.now }
    requires user { IsTrue (is_user tables.now user) }
    requires spelled { AreSpelled tables.now.triples }
    requires words { HasGoodWords verb.now }
    ensures { PlansVerb tables.now (user_name tables.now user) verb.now result }
{
    match verb {
        Verb::MkUser { name, kind } => plan_mkuser(alloc, tables, user, name, *kind),
        Verb::MkGroup { name } => plan_mkgroup(alloc, tables, user, name),
        Verb::MkDir { path } => plan_mkdir(alloc, tables, user, path),
        Verb::RmDir { path } => plan_rmdir(alloc, tables, user, path),
        Verb::Mv { from, to } => plan_move(alloc, tables, user, from, to),
        Verb::ChMod { level, name, path } => plan_chmod(alloc, tables, user, *level, name, path),
        Verb::Inherit { path } => plan_inherit(alloc, tables, user, path, true),
        Verb::NoInherit { path } => plan_inherit(alloc, tables, user, path, false),
        Verb::AddMember {
            group,
            user: member,
        } => { plan_addmember(alloc, tables, user, group, member) }
        Verb::RmMember {
            group,
            user: member,
        } => { plan_rmmember(alloc, tables, user, group, member) }
        Verb::MkStorage { name, slot } => {
            plan_mkresc(alloc, tables, user, name, ResourceKind::Storage, *slot)
        }
        Verb::MkCoordinating { name, kind } => plan_mkresc(alloc, tables, user, name, *kind, 0),
        Verb::AddChild { parent, child } => plan_addchild(alloc, tables, user, parent, child),
        Verb::ModResc { name, up } => plan_modresc(alloc, tables, user, name, *up),
        Verb::Trim { path, resource } => plan_trim(alloc, tables, user, path, resource),
        Verb::Rm { path } => plan_rm(alloc, tables, user, path),
        Verb::AddMeta {
            item,
            name,
            attribute,
            value,
            unit,
        } => plan_said(alloc, tables, user, *item, name, attribute, value, unit),
        Verb::RmMeta {
            item,
            name,
            attribute,
            value,
            unit,
        } => plan_unsaid(alloc, tables, user, *item, name, attribute, value, unit),
        _ => Err(PlanError::Refused(Refusal::UnknownCommand)),
    }
}
