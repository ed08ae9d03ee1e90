//! The console: a script in, everything that happened out.
#![tactic(auto)]

mod output;
mod register;
mod register_console;
mod showing;

use anyhow::anyhow;
use booking::run;
use register_console::RegisterConsole;
use std::io::{BufWriter, Read, Write};

fn main(rt: HostRuntime) -> anyhow::Result<()> {
    let heap = rt.alloc();
    let mut text = Vec::new(heap);
    rt.stdin().read_to_end(&mut text)?;
    let mut out = BufWriter::new(heap, rt.stdout())?;
    let console = RegisterConsole { heap };
    let understood = run(heap, &console, &mut out, &text)?;
    out.flush()?;
    if !understood {
        return Err(anyhow!("a command was not understood"));
    }
    Ok(())
}
