ghost use Rattle.std.specs.Prelude.{◌≡◌, ◌-◌, ◌^◌, ◌≤◌, IfOk, IsTrue, Ok, length};
ghost use Rattle.grid_model.specs.Applying.{IsMade, is_user};
ghost use Rattle.grid_model.specs.Deeds.{Deed, deed};
ghost use Rattle.grid_model.specs.Operations.Objects.{put_row};
ghost use Rattle.grid_model.specs.RowGrids.{grid_of, user_name};
ghost use Rattle.grid_headline.specs.Numbers.{leaf_count};
ghost use Rattle.plan_object.specs.ChksumPlans.{FindsChksum};
ghost use Rattle.plan_object.specs.ReplPlans.{FindsRepl};
ghost use Rattle.plan_object.specs.Writing.{FindsTargets, WritesFiles, Wanted};

use grid_journal::Store;
use grid_model::{Digest, Mode, OldFile, OldFiles, Path, Plan, PlanError, Text};
use grid_tree::Leaves;
use plan_object::{chksum_files, plan_put, put_targets, repl_source};
use std::alloc::{AllocError, Global};

/// More leaves, and more files, than a plan has, since there is at most one leaf for each of 256 slots.
const MANY_FILES: usize = 65_536;

/// The leaves that a put of this body goes to for this word, or why it is refused.
pub(crate) fn find_targets(
    alloc: Global,
    store: &Store,
    user: u32,
    path: &Path,
    resource: &Text,
    mode: Mode,
    body: &[u8],
    word: u64,
) -> Result<Leaves, PlanError>
    requires made { IsMade store.now.cat }
    requires user { IsTrue (is_user store.now.cat user) }
    ensures { let w : Wanted = record { path = path.now; resource = resource.now; mode = mode; size = length body.now } in
        FindsTargets store.now.cat (user_name store.now.cat user) w word result }
{
    let size = body.len() as u64;
    put_targets(
        alloc,
        store.tables(),
        user,
        path,
        resource,
        mode,
        size,
        word,
    )
}

/// The file that a repl of the object at the path to the resource reads, or why it is refused.
pub(crate) fn find_source(
    alloc: Global,
    store: &Store,
    user: u32,
    path: &Path,
    resource: &Text,
) -> Result<OldFile, PlanError>
    requires made { IsMade store.now.cat }
    requires user { IsTrue (is_user store.now.cat user) }
    ensures { FindsRepl store.now.cat (user_name store.now.cat user) path.now resource.now result }
{
    repl_source(alloc, store.tables(), user, path, resource)
}

/// The files that a chksum of the object at the path looks at, or why it is refused.
pub(crate) fn find_files(
    alloc: Global,
    store: &Store,
    user: u32,
    path: &Path,
) -> Result<OldFiles, PlanError>
    requires made { IsMade store.now.cat }
    requires user { IsTrue (is_user store.now.cat user) }
    ensures { FindsChksum store.now.cat (user_name store.now.cat user) path.now result }
{
    chksum_files(alloc, store.tables(), user, path)
}

/// The plan of a put that is not refused, for this word and this time. Fails for want of memory alone.
pub(crate) fn put_plan(
    alloc: Global,
    store: &Store,
    user: u32,
    path: &Path,
    resource: &Text,
    mode: Mode,
    body: &[u8],
    word: u64,
    now: u64,
) -> Result<Plan, AllocError>
    requires made { IsMade store.now.cat }
    requires user { IsTrue (is_user store.now.cat user) }
    requires may { (d : Deed) × (put_row (grid_of store.now.cat) (user_name store.now.cat user) path.now resource.now mode body.now ≡ Ok (deed d)) }
    requires vault { store.now.cat.numbers.next_vault ≤ 2 ^ 64 - 2 ^ 33 }
    ensures plans { let row = put_row (grid_of store.now.cat) (user_name store.now.cat user) path.now resource.now mode body.now in
        IfOk result (WritesFiles store.now.cat row word now body.now) }
    ensures few { IfOk result (λ plan. length plan.files ≤ 2 ^ 16) }
    ensures leaves { IfOk result (λ plan. length plan.files ≤ leaf_count store.now.cat) }
{
    let leaves = match find_targets(alloc, store, user, path, resource, mode, body, word) {
        Ok(leaves) => leaves,
        Err(PlanError::Memory) => return Err(AllocError),
        Err(PlanError::Refused(_)) => unreachable!(),
    };
    if leaves.as_slice().len() > MANY_FILES {
        return Err(AllocError);
    }
    let size = body.len() as u64;
    let digest = Digest::of(body);
    let plan = plan_put(
        alloc,
        store.tables(),
        user,
        path,
        &leaves,
        size,
        digest,
        now,
    )?;
    if plan.files.as_slice().len() > MANY_FILES {
        return Err(AllocError);
    }
    Ok(plan)
}
