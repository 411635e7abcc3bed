// What a stop may leave of a device, worked by hand for short histories.
ghost use Rattle.std.specs.Prelude.{◌≡◌, ℕ, true, [], ◌∷◌, Vec};
ghost use Rattle.std.specs.FinMap.{empty};
ghost use Rattle.std.specs.declared.alloc.Global.{Global};
ghost use Rattle.grid_outside.specs.DiskModel.{MayLeave};
ghost use Rattle.grid_outside.specs.Files.{Files, file_at, finished};
ghost use Rattle.grid_mem.specs.declared.call.Call.{Call};
ghost use Rattle.grid_mem.specs.DiskCalls.{unsynced_at};
ghost use Rattle.grid_mem.specs.SinkCalls.{putting_at, MayStand};
ghost use Rattle.grid_mem.specs.StoreCalls.{known_files_at, MayBeFiles};

use crate::{DiskDeed, StoreDeed};
use std::test::Fail;

// Two bytes were written at 1 over three.
fn a_torn_write(written: Vec<u8>)
    requires { written.items ≡ 7 ∷ 8 ∷ [] }
    ensures some_of_it { let call : Call DiskDeed = record { moment = 1; deed = DiskDeed.Write 1 written; done = true } in
        MayLeave (unsynced_at 1 (record { start = 1 ∷ 2 ∷ 3 ∷ []; calls = call ∷ [] })) (1 ∷ 9 ∷ 3 ∷ []) }
    ensures not_elsewhere { let call : Call DiskDeed = record { moment = 1; deed = DiskDeed.Write 1 written; done = true } in
        ¬ (MayLeave (unsynced_at 1 (record { start = 1 ∷ 2 ∷ 3 ∷ []; calls = call ∷ [] })) (9 ∷ 2 ∷ 3 ∷ [])) }
{
    let _ = written;
}

// Three bytes were cut to one, and then the disk was synced.
fn a_cut()
    ensures between { let cut : Call DiskDeed = record { moment = 1; deed = DiskDeed.Cut 1; done = true } in
        let sync : Call DiskDeed = record { moment = 2; deed = DiskDeed.Sync; done = true } in
        MayLeave (unsynced_at 2 (record { start = 1 ∷ 2 ∷ 3 ∷ []; calls = cut ∷ sync ∷ [] })) (1 ∷ 2 ∷ []) }
    ensures synced { let cut : Call DiskDeed = record { moment = 1; deed = DiskDeed.Cut 1; done = true } in
        let sync : Call DiskDeed = record { moment = 2; deed = DiskDeed.Sync; done = true } in
        ¬ (MayLeave (unsynced_at 3 (record { start = 1 ∷ 2 ∷ 3 ∷ []; calls = cut ∷ sync ∷ [] })) (1 ∷ 2 ∷ [])) }
{}

// A file was created and finished.
fn a_new_file()
    ensures absent { let create : Call StoreDeed = record { moment = 1; deed = StoreDeed.Create 7; done = true } in
        let finish : Call StoreDeed = record { moment = 2; deed = StoreDeed.Finish 7; done = true } in
        MayBeFiles (known_files_at 2 (record { start = empty; calls = create ∷ finish ∷ [] })) empty }
    ensures stable { let create : Call StoreDeed = record { moment = 1; deed = StoreDeed.Create 7; done = true } in
        let finish : Call StoreDeed = record { moment = 2; deed = StoreDeed.Finish 7; done = true } in
        (image : Files) → MayBeFiles (known_files_at 3 (record { start = empty; calls = create ∷ finish ∷ [] })) image
        → file_at image 7 ≡ finished [] }
{}

// Two bytes were put, and then three more.
fn a_second_put(first: Vec<u8>, second: Vec<u8>)
    requires first { first.items ≡ 2 ∷ 3 ∷ [] }
    requires second { second.items ≡ 4 ∷ 5 ∷ 6 ∷ [] }
    ensures part { let one : Call (Vec ℕ Global) = record { moment = 1; deed = first; done = true } in
        let two : Call (Vec ℕ Global) = record { moment = 2; deed = second; done = true } in
        MayStand (putting_at 2 (record { start = 1 ∷ []; calls = one ∷ two ∷ [] })) (1 ∷ 2 ∷ 3 ∷ 4 ∷ []) }
    ensures over { let one : Call (Vec ℕ Global) = record { moment = 1; deed = first; done = true } in
        let two : Call (Vec ℕ Global) = record { moment = 2; deed = second; done = true } in
        ¬ (MayStand (putting_at 3 (record { start = 1 ∷ []; calls = one ∷ two ∷ [] })) (1 ∷ 2 ∷ 3 ∷ 4 ∷ [])) }
{
    let _ = (first, second);
}

#[test]
fn pictures_are_what_the_rules_allow(rt: HostRuntime) -> Result<(), Fail> {
    let alloc = rt.alloc();
    a_torn_write([7, 8].to_vec(alloc)?);
    a_cut();
    a_new_file();
    a_second_put([2, 3].to_vec(alloc)?, [4, 5, 6].to_vec(alloc)?);
    Ok(())
}
