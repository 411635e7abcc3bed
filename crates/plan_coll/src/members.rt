ghost use Rattle.std.specs.Prelude.{◌≡◌, false, IsTrue, MatchOption};
ghost use Rattle.grid_journal.specs.Journal.{can_be_kept};
ghost use Rattle.grid_model.specs.Applying.{IsMade, is_user};
ghost use Rattle.grid_model.specs.Grid.{everybody};
ghost use Rattle.grid_model.specs.Names.{same_text};
ghost use Rattle.grid_model.specs.Operations.Table.{addmember, rmmember};
ghost use Rattle.grid_model.specs.Operations.Users.{can_be_member};
ghost use Rattle.grid_model.specs.RowGrids.{grid_of, user_name};
ghost use Rattle.grid_model.specs.declared.deltas.Delta.TheVariants as delta;
ghost use Rattle.plan_base.specs.Plans.{PlansChange};
ghost use Rattle.plan_coll.specs.Joining.{Joins};

use grid_model::{Delta, Deltas, MemberRow, PlanError, Refusal, Text};
use grid_tables::{Kind, Tables};
use plan_base::{has_room, is_admin, is_group, is_person, kind_named};
use std::alloc::Global;

/// Plans that a user is in a group from now on (`addmember`).
pub fn plan_addmember(
    alloc: Global,
    tables: &Tables,
    user: u32,
    group: &Text,
    member: &Text,
) -> Result<Deltas, PlanError>
    requires made { IsMade tables.now }
    requires user { IsTrue (is_user tables.now user) }
    ensures { PlansChange tables.now (user_name tables.now user) (addmember group.now member.now) result }
{
    if !is_admin(tables, user) {
        return Err(PlanError::Refused(Refusal::NotAdmin));
    }
    let row = match member_row(tables, group, member) {
        None => return Err(PlanError::Refused(Refusal::NoUser)),
        Some(row) => row,
    };
    if is_everybody(group) {
        return Err(PlanError::Refused(Refusal::Exists));
    }
    if tables.is_member(row.group, row.user) {
        return Err(PlanError::Refused(Refusal::Exists));
    }
    if let Err(refusal) = has_room(tables, Kind::Members, 1) {
        return Err(PlanError::Refused(refusal));
    }
    match vec![in alloc; Delta::Member(row)] {
        Err(_) => Err(PlanError::Memory),
        Ok(deltas) => Ok(Deltas::from_vec(deltas)),
    }
}

/// Plans that a user is in a group no longer (`rmmember`).
pub fn plan_rmmember(
    alloc: Global,
    tables: &Tables,
    user: u32,
    group: &Text,
    member: &Text,
) -> Result<Deltas, PlanError>
    requires made { IsMade tables.now }
    requires user { IsTrue (is_user tables.now user) }
    ensures { PlansChange tables.now (user_name tables.now user) (rmmember group.now member.now) result }
{
    if !is_admin(tables, user) {
        return Err(PlanError::Refused(Refusal::NotAdmin));
    }
    let row = match member_row(tables, group, member) {
        None => return Err(PlanError::Refused(Refusal::NoUser)),
        Some(row) => row,
    };
    if is_everybody(group) {
        return Err(PlanError::Refused(Refusal::Fixed));
    }
    if !tables.is_member(row.group, row.user) {
        return Err(PlanError::Refused(Refusal::NoMember));
    }
    match vec![in alloc; Delta::NoMember(row)] {
        Err(_) => Err(PlanError::Memory),
        Ok(deltas) => Ok(Deltas::from_vec(deltas)),
    }
}

// Whether this is the name of the group of all.
fn is_everybody(group: &Text) -> bool
    ensures { result ≡ same_text group.now everybody }
{
    group.has_bytes(b"public")
}

// The group and the user of these names, none where the one is no group or the other no user.
fn member_row(tables: &Tables, group: &Text, member: &Text) -> Option<MemberRow>
    requires { IsMade tables.now }
    ensures { MatchOption result (can_be_member (grid_of tables.now) group.now member.now ≡ false) (Joins tables.now group.now member.now) }
{
    if !is_group(kind_named(tables, group)) {
        return None;
    }
    if !is_person(kind_named(tables, member)) {
        return None;
    }
    match tables.user_named(group) {
        None => None,
        Some(group) => match tables.user_named(member) {
            None => None,
            Some(user) => Some(joined(group, user)),
        },
    }
}

// The row of this user in this group.
fn joined(group: u32, user: u32) -> MemberRow
    ensures row { result ≡ record { group = group; user = user } }
    ensures kept { IsTrue (can_be_kept (delta.Member result)) }
    ensures dropped { IsTrue (can_be_kept (delta.NoMember result)) }
{
    MemberRow { group, user }
}
