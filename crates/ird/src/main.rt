//! The program `ird`: it does what its words ask for, over the folder in which it is started, standard input and
//! standard output. The catalogue lies in the files `catalogue.a` and `catalogue.b`, and the stores are the folders
//! `vault0` to `vault7`.
//!
//! `ird init <zone> <admin>` begins a grid, and `ird serve` answers requests. Where the exit status is not 0, one line on
//! standard error says what failed.
#![tactic(auto)]

ghost use Rattle.std.specs.Prelude.{◌≡◌, IfOk};

mod ending;
mod telling;
#[cfg(test)]
mod tests;
mod words;

use ending::exit_status;
use grid_file::{FileDisk, FolderStore, RealAmbient, StdinSource, StdoutSink, StreamGuard};
use grid_model::Side;
use grid_outside::{Moments, Outside, Plugin, add_store};
use grid_server::{Status, run};
use std::alloc::AllocError;
use std::process::ExitCode;
use telling::{Failures, complaint, file_of};
use words::program_words;

fn main(rt: HostRuntime) -> ExitCode {
    let (status, failures) = work(rt).unwrap_or((Status::Memory, Failures::none()));
    tell(rt, status, &failures);
    ExitCode::from(exit_status(status))
}

// Tells people on standard error how the run ended, if it did not end well.
fn tell(rt: HostRuntime, status: Status, failures: &Failures) {
    // Where that fails too, there is nobody left to tell.
    let _ = match complaint(rt.alloc(), status, failures) {
        Ok(Some(line)) => eprintln!(rt; "ird: {line}"),
        Ok(None) => Ok(()),
        Err(AllocError) => eprintln!(rt; "ird: out of memory"),
    };
}

// Makes the devices and runs over them, and answers how that ended and what failed. The only error is want of memory
// before that.
fn work(rt: HostRuntime) -> Result<(Status, Failures), AllocError> {
    // It is held to the end. Where it cannot be had, no disk can.
    let _guard = StreamGuard::new(&rt);
    let alloc = rt.alloc();
    let mut stores: Vec<Box<dyn Plugin>> = Vec::new(alloc);
    add_store(&mut stores, vault(rt, "vault0")?)?;
    add_store(&mut stores, vault(rt, "vault1")?)?;
    add_store(&mut stores, vault(rt, "vault2")?)?;
    add_store(&mut stores, vault(rt, "vault3")?)?;
    add_store(&mut stores, vault(rt, "vault4")?)?;
    add_store(&mut stores, vault(rt, "vault5")?)?;
    add_store(&mut stores, vault(rt, "vault6")?)?;
    add_store(&mut stores, vault(rt, "vault7")?)?;
    let words = program_words(&rt, alloc)?;
    let mut outside = Outside {
        main: FileDisk::new(rt, file_of(Side::Main)),
        spare: FileDisk::new(rt, file_of(Side::Spare)),
        stores,
        ambient: RealAmbient::new(rt),
        moments: Moments::start(),
    };
    let mut source = StdinSource::new(rt);
    let mut sink = StdoutSink::new(rt);
    let status = run(alloc, &words, &mut outside, &mut source, &mut sink);
    let failures = Failures {
        main: outside.main.failure(),
        spare: outside.spare.failure(),
        source: source.failure(),
        sink: sink.failure(),
    };
    Ok((status, failures))
}

// The store in the folder of this name.
fn vault(rt: HostRuntime, name: &str) -> Result<Box<FolderStore>, AllocError>
    ensures { IfOk result (λ store. store.value.last ≡ 0) }
{
    let alloc = rt.alloc();
    let name = String::from_str(alloc, name)?;
    let store = Box::new(alloc, FolderStore::new(rt, name))?;
    Ok(store)
}
