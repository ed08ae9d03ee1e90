//! The console: a script in, everything that happened out.
#![tactic(auto)]

mod book_console;

use anyhow::anyhow;
use book_console::BookConsole;
use booking::run;
use std::io::{BufWriter, Read, Write};

fn main(rt: HostRuntime) -> anyhow::Result<()> {
    let heap = rt.alloc();
    let mut text = Vec::new(heap);
    rt.stdin().read_to_end(&mut text)?;
    let mut out = BufWriter::new(heap, rt.stdout())?;
    let understood = run(heap, &BookConsole, &mut out, &text)?;
    out.flush()?;
    if !understood {
        return Err(anyhow!("a command was not understood"));
    }
    Ok(())
}
