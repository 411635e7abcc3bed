ghost use Rattle.std.specs.Prelude.{◌≡◌, ◌≢◌, ◌⊎◌, ◌+◌, ◌^◌, ◌<◌, ◌≤◌, ℕ, List, [], None, Some, length, map, IsTrue, IfOk, Ok, Err, vec_len};
ghost use Rattle.grid_outside.specs.Device.{Looks, EachMember};
ghost use Rattle.grid_outside.specs.Fault.{Rose};
ghost use Rattle.grid_model.specs.Names.{is_name};
ghost use Rattle.grid_model.specs.Grid.{everybody};
ghost use Rattle.grid_model.specs.Inputs.{Asked as AskedOf};
ghost use Rattle.grid_model.specs.Rows.{Cat};
ghost use Rattle.grid_model.specs.Applying.{IsMade};
ghost use Rattle.grid_model.specs.Checks.{first_fault, rules_faults};
ghost use Rattle.grid_model.specs.Parsed.{rule_of};
ghost use Rattle.grid_journal.specs.Journal.{Keeps};
ghost use Rattle.grid_journal.specs.Start.{start};
ghost use Rattle.grid_journal.specs.Stands.{Stands};
ghost use Rattle.grid_deed.specs.Frame.{AddsInRoom, StoresGo};
ghost use Rattle.grid_deed.specs.Safe.{AreWhole};
ghost use Rattle.grid_headline.specs.Ends.{HasRunOut, ReadsMost, RunEnd};
ghost use Rattle.grid_headline.specs.Headline.{BeginsOn, Serves};
ghost use Rattle.grid_headline.specs.Reads.{HasRules};
ghost use Rattle.grid_headline.specs.Seen.{seen};
ghost use Rattle.run_laws.specs.Went.{AreInOrder, Rests};
ghost use Rattle.run_laws.specs.Passes.{AreReady, CallsPass};
ghost use Rattle.chain_core.specs.Seen.{rules_of};
ghost use Rattle.grid_server.specs.Files.{HaveNoFiles};
ghost use Rattle.run_open.specs.Preparing.{HasRoom};
ghost use Rattle.grid_server.specs.RunEnds.{run_end_of, unopened};
ghost use Rattle.grid_server.specs.Starting.{usage_line as usage_text, not_empty_line as not_empty_text};
ghost use Rattle.grid_server.specs.Starting.{not_a_catalogue_line as not_a_catalogue_text, stores_line as stores_text};
ghost use Rattle.grid_server.specs.Starting.{side_name as side_text};
ghost use Rattle.grid_server.specs.Running.{SaysLine, HoldsStill, RefusesDisks, RefusesStores, Inits, IsComplete, EndsServing, IsNotBegun};
ghost use Rattle.grid_server.specs.Serving.{SinkWent, TookFew};
ghost use Rattle.run_laws.specs.declared.around.Around.{Around};
ghost use Rattle.grid_server.specs.Views.{Views, world_of};
ghost use Rattle.grid_server.specs.Tasks as task;
ghost use Rattle.grid_server.specs.Tasks.{AsksForTask, AsksNothing};

use crate::Status;
use crate::sweeping::sweep_and_serve;
use crate::words::{Asked, read_words};
use chain_core::RuleBase;
use cmd_run::Server;
use grid_journal::{JournalError, Store};
use grid_model::{Side, Text};
use grid_outside::{Ambient, Disk, Moments, Outside, Plugin, Sink, Source, Wear};
use grid_tables::Tables;
use rule_keep::kept_rules;
use run_open::{OpenError, open_run};
use sess::Sessions;
use std::alloc::{AllocError, Global};
use std::mem::forget;

/// Does what the words of the program ask for.
///
/// `init <zone> <admin>` begins a grid on two empty disks, and `serve` answers the requests of the source over the
/// catalogue on the main disk. Any other words are `Usage`. At most 2^48 + 1 bytes of the source are taken.
///
/// The program ends with a run, so the memory of the catalogue is not given back: that would take as long as a good part of
/// its opening.
pub fn run<D: Disk, S: Source, K: Sink, A: Ambient, P: Plugin>(
    alloc: Global,
    words: &[Text],
    outside: &mut Outside<D, A, P>,
    source: &mut S,
    sink: &mut K,
) -> Status
    requires main_last { (D.disk outside.old.main).last ≤ outside.old.moments }
    requires spare_last { (D.disk outside.old.spare).last ≤ outside.old.moments }
    requires sink_last { (K.sink sink.old).last ≤ outside.old.moments }
    requires stores_last { EachMember (λ k store. (P.plugin store).last ≤ outside.old.moments) outside.old.stores.items }
    requires room { outside.old.moments + (2 ^ 127 + 2 ^ 126) < 2 ^ 128 }
    requires stores { (0 < vec_len outside.old.stores) × (vec_len outside.old.stores ≤ 16) }

    // Words that ask for nothing: the line of usage, and no device but the sink is touched.
    ensures usage { AsksNothing words.now → SaysLine usage_text Status.Usage (K.sink sink.old) (K.sink sink.new) result }
    ensures usage_only { result ≡ Status.Usage → AsksNothing words.now }
    ensures usage_main { AsksNothing words.now → outside.new.main ≡ outside.old.main }
    ensures usage_source { AsksNothing words.now → source.new ≡ source.old }
    ensures usage_others { AsksNothing words.now → (outside.new.spare ≡ outside.old.spare) × (outside.new.stores ≡ outside.old.stores)
        × (outside.new.ambient ≡ outside.old.ambient) }

    // To begin a grid.
    ensures init { (zone admin : List ℕ) → AsksForTask words.now (task.init zone admin) →
        Inits zone admin (vec_len outside.old.stores) (D.disk outside.old.main) (D.disk outside.new.main) (D.disk outside.old.spare) (K.sink sink.old)
        (K.sink sink.new) result }
    ensures init_stores { (zone admin : List ℕ) → AsksForTask words.now (task.init zone admin) → outside.new.stores ≡ outside.old.stores }
    ensures init_source { (zone admin : List ℕ) → AsksForTask words.now (task.init zone admin) → source.new ≡ source.old }

    // Where the stores have no files the catalogue of a new grid says so.
    ensures init_whole { (zone admin : List ℕ) (t : ℕ) → AsksForTask words.now (task.init zone admin) → HaveNoFiles P.plugin t outside.old.stores.items →
        AreWhole P.plugin t (start zone admin (vec_len outside.old.stores)) outside.new.stores.items }

    // To answer requests: how that may end, whatever the devices tell.
    ensures serving { AsksForTask words.now task.serve → EndsServing result }

    // What was answered and shown, and what a stop at any moment leaves.
    ensures serve { AsksForTask words.now task.serve → (found : Cat) (end : RunEnd) →
        let old = seen D.disk A.ambient S.source K.sink P.plugin outside.old source.old sink.old in BeginsOn old found → run_end_of result ≡ Some end →
        Serves old (seen D.disk A.ambient S.source K.sink P.plugin outside.new source.new sink.new) found end }

    // How much of the source was taken.
    ensures took { IsTrue (S.source source.old).tells → TookFew (S.source source.old) (S.source source.new) }
    ensures long_only { (taken : ℕ) → result ≡ Status.Long taken → (taken ≡ 2 ^ 48 + 1) ×
        (IsTrue (S.source source.old).tells → (asked : List AskedOf) × ReadsMost asked (S.source source.old) (S.source source.new)) }

    // The numbers of runs, or the room of the log, had run out before: nothing is touched.
    ensures worn { (found : Cat) → AsksForTask words.now task.serve → IsTrue (D.disk outside.old.main).tells
        → Stands (D.disk outside.old.main).holds (D.disk outside.old.spare).holds (Ok found) →
        found.stores ≡ vec_len outside.old.stores → ¬ HasRoom found (D.disk outside.old.main) →
        IsNotBegun result × Rests (D.disk outside.old.main) (D.disk outside.new.main) × (source.new ≡ source.old)
        × (sink.new ≡ sink.old) × (outside.new.stores ≡ outside.old.stores) }

    ensures worn_only { (found : Cat) (what : Wear) (place : ℕ) → result ≡ Status.Worn what place → IsTrue (D.disk outside.old.main).tells →
        Stands (D.disk outside.old.main).holds (D.disk outside.old.spare).holds (Ok found) →
        HasRunOut found (D.disk outside.new.main).holds (D.disk outside.new.spare).holds place what }

    // A record is added to the log only where it has room.
    ensures in_room { AsksForTask words.now task.serve → ¬ (result ≡ Status.DiskFault) → AddsInRoom (D.disk outside.old.main) (D.disk outside.new.main) }

    // The catalogue is of another number of stores.
    ensures stores { (found : Cat) → AsksForTask words.now task.serve → IsTrue (D.disk outside.old.main).tells →
        Stands (D.disk outside.old.main).holds (D.disk outside.old.spare).holds (Ok found) → found.stores ≢ vec_len outside.old.stores →
        RefusesStores found.stores (vec_len outside.old.stores) (K.sink sink.old) (K.sink sink.new) result
        × Rests (D.disk outside.old.main) (D.disk outside.new.main) × (source.new ≡ source.old) × (outside.new.stores ≡ outside.old.stores) }
    ensures stores_only { (had given : ℕ) → result ≡ Status.Stores had given → (had ≢ given) × (given ≡ vec_len outside.old.stores) ×
        ((found : Cat) → IsTrue (D.disk outside.old.main).tells → Stands (D.disk outside.old.main).holds (D.disk outside.old.spare).holds (Ok found)
        → had ≡ found.stores) }

    // The disks hold none.
    ensures refuses { (side : Side) (place : ℕ) → AsksForTask words.now task.serve → IsTrue (D.disk outside.old.main).tells →
        Stands (D.disk outside.old.main).holds (D.disk outside.old.spare).holds (Err (side, place)) →
        RefusesDisks side place (K.sink sink.old) (K.sink sink.new) result × Rests (D.disk outside.old.main) (D.disk outside.new.main)
        × (source.new ≡ source.old)
        × (outside.new.stores ≡ outside.old.stores) }
    ensures not_a_catalogue { (side : Side) (place : ℕ) → result ≡ Status.NotACatalogue side place → IsTrue (D.disk outside.old.main).tells →
        Stands (D.disk outside.old.main).holds (D.disk outside.old.spare).holds (Err (side, place)) }

    // A fault is answered only where that device failed.
    ensures disk_fault { result ≡ Status.DiskFault →
        Rose (D.disk outside.old.main).faults (D.disk outside.new.main).faults ⊎ Rose (D.disk outside.old.spare).faults (D.disk outside.new.spare).faults }
    ensures source_fault { result ≡ Status.SourceFault → Rose (S.source source.old).faults (S.source source.new).faults }
    ensures sink_fault { result ≡ Status.SinkFault → Rose (K.sink sink.old).faults (K.sink sink.new).faults }

    // Where no count of faults rose all is done, unless memory or something else runs out.
    ensures init_all { (zone admin : List ℕ) → AsksForTask words.now (task.init zone admin) → IsTrue (D.disk outside.old.main).tells
        → IsTrue (D.disk outside.old.spare).tells →
        (D.disk outside.old.main).holds ≡ [] → (D.disk outside.old.spare).holds ≡ [] →
        ¬ Rose (D.disk outside.old.main).faults (D.disk outside.new.main).faults → ¬ Rose (D.disk outside.old.spare).faults (D.disk outside.new.spare).faults →
        ¬ Rose (K.sink sink.old).faults (K.sink sink.new).faults → (result ≡ Status.Done) ⊎ (result ≡ Status.Memory) }
    ensures serve_all { (found : Cat) → AsksForTask words.now task.serve → IsTrue (D.disk outside.old.main).tells → IsTrue (S.source source.old).tells →
        Stands (D.disk outside.old.main).holds (D.disk outside.old.spare).holds (Ok found) → found.stores ≡ vec_len outside.old.stores →
        length (S.source source.old).left ≤ 2 ^ 48 → ¬ Rose (D.disk outside.old.main).faults (D.disk outside.new.main).faults →
        ¬ Rose (D.disk outside.old.spare).faults (D.disk outside.new.spare).faults → ¬ Rose (S.source source.old).faults (S.source source.new).faults
        → ¬ Rose (K.sink sink.old).faults (K.sink sink.new).faults → IsComplete result }

    // Spare is only looked at, and not even that to answer requests.
    ensures spare { Looks (D.disk outside.old.spare) (D.disk outside.new.spare) }
    ensures serve_spare { AsksForTask words.now task.serve → outside.new.spare ≡ outside.old.spare }

    // Another run may be over the same devices: they were given no moment that was not drawn, and few were. There are as many
    // stores as before.
    ensures main_last { (D.disk outside.new.main).last ≤ outside.new.moments }
    ensures spare_last { (D.disk outside.new.spare).last ≤ outside.new.moments }
    ensures sink_last { (K.sink sink.new).last ≤ outside.new.moments }
    ensures stores_last { EachMember (λ k store. (P.plugin store).last ≤ outside.new.moments) outside.new.stores.items }
    ensures stores_go { StoresGo P.plugin outside.old.moments outside.old.stores.items outside.new.stores.items }
    ensures drawn_from { outside.old.moments ≤ outside.new.moments }
    ensures drawn { outside.new.moments ≤ outside.old.moments + (2 ^ 127 + 2 ^ 126) }
{
    match read_words(words) {
        Asked::Serve => serve(alloc, outside, source, sink),
        Asked::Init { zone, admin } => init(alloc, zone, admin, outside, sink),
        Asked::Nothing => say(
            &mut outside.moments,
            sink,
            b"usage: ird init <zone> <admin> | serve | check | gen <seed> <count>\n",
            Status::Usage,
        ),
    }
}

// Writes a line, and answers this status.
fn say<K: Sink>(moments: &mut Moments, sink: &mut K, line: &[u8], status: Status) -> Status
    requires sink_last { (K.sink sink.old).last ≤ moments.old }
    requires room { moments.old + 1 < 2 ^ 128 }
    ensures says { SaysLine line.now status (K.sink sink.old) (K.sink sink.new) result }
    ensures fault { result ≡ Status.SinkFault → (status ≡ Status.SinkFault) ⊎ Rose (K.sink sink.old).faults (K.sink sink.new).faults }
    ensures went { SinkWent moments.old moments.new (K.sink sink.old) (K.sink sink.new) }
{
    match sink.put(moments.next(), line) {
        Ok(()) => status,
        Err(_) => Status::SinkFault,
    }
}

// Answers the requests of the source over the catalogue on the disks.
fn serve<D: Disk, S: Source, K: Sink, A: Ambient, P: Plugin>(
    alloc: Global,
    outside: &mut Outside<D, A, P>,
    source: &mut S,
    sink: &mut K,
) -> Status
    requires ready { AreReady D.disk P.plugin K.sink (2 ^ 127 + 2 ^ 126) (record { outside = outside.old; sink = sink.old }) }
    requires spare_last { (D.disk outside.old.spare).last ≤ outside.old.moments }
    requires stores { (0 < vec_len outside.old.stores) × (vec_len outside.old.stores ≤ 16) }
    ensures serve { (found : Cat) (end : RunEnd) →
        let old = seen D.disk A.ambient S.source K.sink P.plugin outside.old source.old sink.old in BeginsOn old found → run_end_of result ≡ Some end →
        Serves old (seen D.disk A.ambient S.source K.sink P.plugin outside.new source.new sink.new) found end }
    ensures worn { (found : Cat) → IsTrue (D.disk outside.old.main).tells → Stands (D.disk outside.old.main).holds (D.disk outside.old.spare).holds (Ok found) →
        found.stores ≡ vec_len outside.old.stores → ¬ HasRoom found (D.disk outside.old.main) →
        IsNotBegun result × Rests (D.disk outside.old.main) (D.disk outside.new.main) × (source.new ≡ source.old)
        × (sink.new ≡ sink.old) × (outside.new.stores ≡ outside.old.stores) }
    ensures worn_only { (found : Cat) (what : Wear) (place : ℕ) → result ≡ Status.Worn what place → IsTrue (D.disk outside.old.main).tells →
        Stands (D.disk outside.old.main).holds (D.disk outside.old.spare).holds (Ok found) →
        HasRunOut found (D.disk outside.new.main).holds (D.disk outside.new.spare).holds place what }
    ensures stores { (found : Cat) → IsTrue (D.disk outside.old.main).tells →
        Stands (D.disk outside.old.main).holds (D.disk outside.old.spare).holds (Ok found) → found.stores ≢ vec_len outside.old.stores →
        RefusesStores found.stores (vec_len outside.old.stores) (K.sink sink.old) (K.sink sink.new) result
        × Rests (D.disk outside.old.main) (D.disk outside.new.main) × (source.new ≡ source.old) × (outside.new.stores ≡ outside.old.stores) }
    ensures stores_only { (had given : ℕ) → result ≡ Status.Stores had given → (had ≢ given) × (given ≡ vec_len outside.old.stores) ×
        ((found : Cat) → IsTrue (D.disk outside.old.main).tells → Stands (D.disk outside.old.main).holds (D.disk outside.old.spare).holds (Ok found)
        → had ≡ found.stores) }
    ensures refuses { (side : Side) (place : ℕ) → IsTrue (D.disk outside.old.main).tells →
        Stands (D.disk outside.old.main).holds (D.disk outside.old.spare).holds (Err (side, place)) →
        RefusesDisks side place (K.sink sink.old) (K.sink sink.new) result × Rests (D.disk outside.old.main) (D.disk outside.new.main)
        × (source.new ≡ source.old)
        × (outside.new.stores ≡ outside.old.stores) }
    ensures not_a_catalogue { (side : Side) (place : ℕ) → result ≡ Status.NotACatalogue side place → IsTrue (D.disk outside.old.main).tells →
        Stands (D.disk outside.old.main).holds (D.disk outside.old.spare).holds (Err (side, place)) }
    ensures took { IsTrue (S.source source.old).tells → TookFew (S.source source.old) (S.source source.new) }
    ensures long_only { (taken : ℕ) → result ≡ Status.Long taken → (taken ≡ 2 ^ 48 + 1) ×
        (IsTrue (S.source source.old).tells → (asked : List AskedOf) × ReadsMost asked (S.source source.old) (S.source source.new)) }
    ensures passes { CallsPass D.disk P.plugin K.sink (result ≡ Status.DiskFault) (result ≡ Status.SinkFault)
        (record { outside = outside.old; sink = sink.old }) (record { outside = outside.new; sink = sink.new }) }
    ensures source { result ≡ Status.SourceFault → Rose (S.source source.old).faults (S.source source.new).faults }
    ensures ends { EndsServing result }
    ensures drawn { outside.new.moments ≤ outside.old.moments + (2 ^ 127 + 2 ^ 126) }
{
    match Store::open(alloc, &mut outside.main, &mut outside.spare) {
        Ok(store) => serve_over(alloc, store, outside, source, sink),
        Err(JournalError::NotACatalogue { side, at }) => {
            refuse(alloc, &mut outside.moments, sink, side, at)
        }
        Err(JournalError::DiskFault) => Status::DiskFault,
        Err(JournalError::Memory) => Status::Memory,
        Err(JournalError::NotEmpty { side: _, len: _ }) => unreachable!(),
        Err(JournalError::Worn { what: _, at: _ }) => unreachable!(),
    }
}

// Answers the requests of the source over a catalogue that was read, whose memory goes with the program.
fn serve_over<D: Disk, S: Source, K: Sink, A: Ambient, P: Plugin>(
    alloc: Global,
    store: Store,
    outside: &mut Outside<D, A, P>,
    source: &mut S,
    sink: &mut K,
) -> Status
    requires sound { IsTrue store.sound }
    requires staged { store.staged ≡ [] }
    requires keeps { IsTrue (D.disk outside.old.main).tells → Keeps store.cat store (D.disk outside.old.main).holds }
    requires made { IsMade store.cat }
    requires ready { AreReady D.disk P.plugin K.sink (2 ^ 127 + 2 ^ 126) (record { outside = outside.old; sink = sink.old }) }
    requires spare_last { (D.disk outside.old.spare).last ≤ outside.old.moments }
    requires stores { (0 < vec_len outside.old.stores) × (vec_len outside.old.stores ≤ 16) }
    ensures serve { let v : Views D S K A P = record { disk = D.disk; source = S.source; sink = K.sink; ambient = A.ambient; plugin = P.plugin } in
        let start : Around D S K A P = record { outside = outside.old; source = source.old; sink = sink.old } in
        (main spare : D) (end : RunEnd) → let old = world_of v (record start { outside = record outside.old { main = main; spare = spare } }) in
        BeginsOn old store.cat → AreInOrder old → Rests (D.disk main) (D.disk outside.old.main) → Rests (D.disk spare) (D.disk outside.old.spare) →
        run_end_of result ≡ Some end → Serves old (world_of v (record { outside = outside.new; source = source.new; sink = sink.new })) store.cat end }
    ensures worn { store.cat.stores ≡ vec_len outside.old.stores → ¬ HasRoom store.cat (D.disk outside.old.main) →
        IsNotBegun result × Rests (D.disk outside.old.main) (D.disk outside.new.main) × (source.new ≡ source.old)
        × (sink.new ≡ sink.old) × (outside.new.stores ≡ outside.old.stores) }
    ensures worn_only { (what : Wear) (place : ℕ) → result ≡ Status.Worn what place → IsTrue (D.disk outside.old.main).tells →
        HasRunOut store.cat (D.disk outside.new.main).holds (D.disk outside.new.spare).holds place what }
    ensures stores { store.cat.stores ≢ vec_len outside.old.stores →
        RefusesStores store.cat.stores (vec_len outside.old.stores) (K.sink sink.old) (K.sink sink.new) result × (outside.new.main ≡ outside.old.main)
        × (source.new ≡ source.old) × (outside.new.stores ≡ outside.old.stores) }
    ensures stores_only { (had given : ℕ) → result ≡ Status.Stores had given → (had ≢ given) × (given ≡ vec_len outside.old.stores) × (had ≡ store.cat.stores) }
    ensures not_a_catalogue { (side : Side) (place : ℕ) → ¬ (result ≡ Status.NotACatalogue side place) }
    ensures took { IsTrue (S.source source.old).tells → TookFew (S.source source.old) (S.source source.new) }
    ensures long_only { (taken : ℕ) → result ≡ Status.Long taken → (taken ≡ 2 ^ 48 + 1) ×
        (IsTrue (S.source source.old).tells → (asked : List AskedOf) × ReadsMost asked (S.source source.old) (S.source source.new)) }
    ensures passes { CallsPass D.disk P.plugin K.sink (result ≡ Status.DiskFault) (result ≡ Status.SinkFault)
        (record { outside = outside.old; sink = sink.old }) (record { outside = outside.new; sink = sink.new }) }
    ensures source { result ≡ Status.SourceFault → Rose (S.source source.old).faults (S.source source.new).faults }
    ensures ends { EndsServing result }
    ensures drawn { outside.new.moments ≤ outside.old.moments + (2 ^ 127 + 2 ^ 126) }
{
    let rows = store.tables();
    let kept = rows.stores();
    let given = outside.stores.len() as u8;
    if kept != given {
        forget(store);
        return refuse_stores(alloc, &mut outside.moments, sink, kept, given);
    }
    let Ok(rules) = base_of(alloc, rows) else {
        forget(store);
        return Status::Memory;
    };
    let Ok(sessions) = Sessions::new(alloc) else {
        forget(store);
        return Status::Memory;
    };
    let mut store = store;
    match open_run(alloc, &mut store, outside, sink) {
        Ok(()) => sweep_and_serve(
            alloc,
            Server {
                store,
                sessions,
                rules,
            },
            outside,
            source,
            sink,
        ),
        Err(error) => {
            forget(store);
            unopened(error)
        }
    }
}

// The status of a run that was not opened.
fn unopened(error: OpenError) -> Status
    ensures { result ≡ unopened error }
{
    match error {
        OpenError::Runs { at } => Status::Worn {
            what: Wear::Runs,
            at,
        },
        OpenError::Vaults { at } => Status::Worn {
            what: Wear::Vaults,
            at,
        },
        OpenError::Log { at } => Status::Worn {
            what: Wear::Log,
            at,
        },
        OpenError::Disk => Status::DiskFault,
        OpenError::Sink => Status::SinkFault,
        OpenError::Memory => Status::Memory,
    }
}

// The rules of the catalogue, as they are run. Fails for want of memory alone: what an opened log has for rules can be read.
fn base_of(alloc: Global, tables: &Tables) -> Result<RuleBase, AllocError>
    ensures has { IfOk result (λ base. HasRules tables.now (rules_of base)) }
    ensures checked { IfOk result (λ base. first_fault (rules_faults (map rule_of base.rules)) ≡ None) }
{
    match kept_rules(alloc, tables.rules())? {
        Some(rules) => RuleBase::new(alloc, rules),
        None => Err(AllocError),
    }
}

// Says that the disks hold no catalogue, which shows at this place.
fn refuse<K: Sink>(
    alloc: Global,
    moments: &mut Moments,
    sink: &mut K,
    side: Side,
    at: u64,
) -> Status
    requires sink_last { (K.sink sink.old).last ≤ moments.old }
    requires room { moments.old + 1 < 2 ^ 128 }
    ensures refuses { RefusesDisks side at (K.sink sink.old) (K.sink sink.new) result }
    ensures ends { (result ≡ Status.NotACatalogue side at) ⊎ (result ≡ Status.Memory) ⊎ (result ≡ Status.SinkFault) }
    ensures fault { result ≡ Status.SinkFault → Rose (K.sink sink.old).faults (K.sink sink.new).faults }
    ensures went { SinkWent moments.old moments.new (K.sink sink.old) (K.sink sink.new) }
{
    let Ok(line) = not_a_catalogue_line(alloc, side, at) else {
        return Status::Memory;
    };
    say(moments, sink, &line, Status::NotACatalogue { side, at })
}

// Says that the catalogue is of another number of stores.
fn refuse_stores<K: Sink>(
    alloc: Global,
    moments: &mut Moments,
    sink: &mut K,
    kept: u8,
    given: u8,
) -> Status
    requires sink_last { (K.sink sink.old).last ≤ moments.old }
    requires room { moments.old + 1 < 2 ^ 128 }
    ensures refuses { RefusesStores kept given (K.sink sink.old) (K.sink sink.new) result }
    ensures ends { (result ≡ Status.Stores kept given) ⊎ (result ≡ Status.Memory) ⊎ (result ≡ Status.SinkFault) }
    ensures fault { result ≡ Status.SinkFault → Rose (K.sink sink.old).faults (K.sink sink.new).faults }
    ensures went { SinkWent moments.old moments.new (K.sink sink.old) (K.sink sink.new) }
{
    let Ok(line) = stores_line(alloc, kept, given) else {
        return Status::Memory;
    };
    say(moments, sink, &line, Status::Stores { kept, given })
}

// Begins a grid and says so, or why not.
fn init<D: Disk, K: Sink, A: Ambient, P: Plugin>(
    alloc: Global,
    zone: &Text,
    admin: &Text,
    outside: &mut Outside<D, A, P>,
    sink: &mut K,
) -> Status
    requires zone { IsTrue (is_name zone.now) }
    requires admin { IsTrue (is_name admin.now) }
    requires not_public { admin.now ≢ everybody }
    requires main_last { (D.disk outside.old.main).last ≤ outside.old.moments }
    requires sink_last { (K.sink sink.old).last ≤ outside.old.moments }
    requires room { outside.old.moments + 3 < 2 ^ 128 }
    requires stores { (0 < vec_len outside.old.stores) × (vec_len outside.old.stores ≤ 16) }
    ensures inits { Inits zone.now admin.now (vec_len outside.old.stores) (D.disk outside.old.main) (D.disk outside.new.main) (D.disk outside.old.spare)
        (K.sink sink.old) (K.sink sink.new) result }
    ensures spare { Looks (D.disk outside.old.spare) (D.disk outside.new.spare) }
    ensures disk { result ≡ Status.DiskFault → Rose (D.disk outside.old.main).faults (D.disk outside.new.main).faults
        ⊎ Rose (D.disk outside.old.spare).faults (D.disk outside.new.spare).faults }
    ensures sink { result ≡ Status.SinkFault → Rose (K.sink sink.old).faults (K.sink sink.new).faults }
    ensures words { (result ≡ Status.Usage) → ⊥ }
    ensures source { (result ≡ Status.SourceFault) → ⊥ }
    ensures catalogue { (side : Side) (place : ℕ) → ¬ (result ≡ Status.NotACatalogue side place) }
    ensures no_stores { (had given : ℕ) → ¬ (result ≡ Status.Stores had given) }
    ensures no_run { ((taken : ℕ) → ¬ (result ≡ Status.Long taken)) × ((what : Wear) (place : ℕ) → ¬ (result ≡ Status.Worn what place)) }
    ensures other_stores { outside.new.stores ≡ outside.old.stores }
    ensures ambient { outside.new.ambient ≡ outside.old.ambient }
    ensures main_last { (D.disk outside.new.main).last ≤ outside.new.moments }
    ensures sink_last { (K.sink sink.new).last ≤ outside.new.moments }
    ensures drawn_from { outside.old.moments ≤ outside.new.moments }
    ensures drawn { outside.new.moments ≤ outside.old.moments + 3 }
{
    let stores = outside.stores.len() as u8;
    match Store::init(
        alloc,
        &mut outside.main,
        &mut outside.spare,
        &mut outside.moments,
        zone,
        admin,
        stores,
    ) {
        Ok(()) => say(&mut outside.moments, sink, b"ok\n", Status::Done),
        Err(JournalError::NotEmpty { side, len }) => {
            refuse_start(alloc, &mut outside.moments, sink, side, len)
        }
        Err(JournalError::DiskFault) => Status::DiskFault,
        Err(JournalError::Memory) => Status::Memory,
        Err(JournalError::NotACatalogue { side: _, at: _ }) => unreachable!(),
        Err(JournalError::Worn { what: _, at: _ }) => unreachable!(),
    }
}

// Says that a disk is not empty.
fn refuse_start<K: Sink>(
    alloc: Global,
    moments: &mut Moments,
    sink: &mut K,
    side: Side,
    len: u64,
) -> Status
    requires sink_last { (K.sink sink.old).last ≤ moments.old }
    requires room { moments.old + 1 < 2 ^ 128 }
    ensures says { SaysLine (not_empty_text side len) (Status.NotEmpty side len) (K.sink sink.old) (K.sink sink.new) result
        ⊎ ((result ≡ Status.Memory) × HoldsStill (K.sink sink.old) (K.sink sink.new)) }
    ensures fault { result ≡ Status.SinkFault → Rose (K.sink sink.old).faults (K.sink sink.new).faults }
    ensures went { SinkWent moments.old moments.new (K.sink sink.old) (K.sink sink.new) }
{
    let Ok(line) = not_empty_line(alloc, side, len) else {
        return Status::Memory;
    };
    say(moments, sink, &line, Status::NotEmpty { side, len })
}

fn not_a_catalogue_line(alloc: Global, side: Side, at: u64) -> Result<Vec<u8>, AllocError>
    ensures { IfOk result (λ line. line.items ≡ not_a_catalogue_text side at) }
{
    let mut line = b"err NotACatalogue ".to_vec(alloc)?;
    line.extend_from_slice(side_name(side))?;
    line.extend_from_slice(at.to_string(alloc)?.as_bytes())?;
    line.extend_from_slice(b"\n")?;
    Ok(line)
}

fn stores_line(alloc: Global, kept: u8, given: u8) -> Result<Vec<u8>, AllocError>
    ensures { IfOk result (λ line. line.items ≡ stores_text kept given) }
{
    let mut line = b"err Stores ".to_vec(alloc)?;
    line.extend_from_slice(kept.to_string(alloc)?.as_bytes())?;
    line.extend_from_slice(b" ")?;
    line.extend_from_slice(given.to_string(alloc)?.as_bytes())?;
    line.extend_from_slice(b"\n")?;
    Ok(line)
}

fn side_name(side: Side) -> &'static [u8]
    ensures { result.now ≡ side_text side }
{
    match side {
        Side::Main => b"main ",
        Side::Spare => b"spare ",
    }
}

fn not_empty_line(alloc: Global, side: Side, len: u64) -> Result<Vec<u8>, AllocError>
    ensures { IfOk result (λ line. line.items ≡ not_empty_text side len) }
{
    let mut line = b"err NotEmpty ".to_vec(alloc)?;
    line.extend_from_slice(side_name(side))?;
    line.extend_from_slice(len.to_string(alloc)?.as_bytes())?;
    line.extend_from_slice(b"\n")?;
    Ok(line)
}
