//! Cases of the texts that are read and written, played from standard input. A line calls a reader or a writer with its
//! texts, and the line behind it, which begins with `=`, has what that shows. A case that shows something else is told.
//! The last line says how many cases there were.
#![tactic(auto)]

mod calls;
mod chains;
mod doer;
mod escapes;
mod fields;
mod grids;
mod patterns;
mod playing;
mod queries;
mod replies;
mod requests;
mod rules;
mod runs;
mod services;
mod sessions;
mod tokens;
mod traces;
mod words;

use playing::play_line;
use std::io;

fn main(rt: HostRuntime) -> io::Result<()> {
    let alloc = rt.alloc();
    let mut cases: u64 = 0;
    let mut shown = String::new(alloc);
    for line in rt.lines(alloc) {
        let line = line?;
        match line.as_str().strip_prefix('=') {
            Some(wanted) => {
                cases = cases.saturating_add(1);
                compare(rt, cases, shown.as_str(), wanted)?;
            }
            None => shown = play_line(alloc, line.as_str())?,
        }
    }
    println!(rt; "{cases} cases")
}

// Tells of a case that does not show what is wanted.
fn compare(rt: HostRuntime, number: u64, shown: &str, wanted: &str) -> io::Result<()> {
    if shown != wanted {
        println!(rt; "case {number}: {shown} and not {wanted}")?;
    }
    Ok(())
}
