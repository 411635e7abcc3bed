//! Cases of runs of the server over devices in memory, played from standard input. The lines of a case say what the
//! devices hold and what is asked of them, and its runs are shown with their replies, how they ended and what they left.
//! What each line means is said at the top of `stdin`.
#![tactic(auto)]

mod devices;
mod escapes;
mod feed;
mod harm;
mod held;
mod keeping;
mod lines;
mod playing;
mod repeats;
mod scene;
mod showing;

use lines::play_line;
use scene::Scene;
use std::io;

fn main(rt: HostRuntime) -> io::Result<()> {
    let alloc = rt.alloc();
    let mut scene = Scene::new(alloc)?;
    for line in rt.lines(alloc) {
        let line = line?;
        let shown = play_line(alloc, &mut scene, line.as_str())?;
        print!(rt; "{shown}")?;
    }
    Ok(())
}
