//! A whole script, from its first line to its last.
use crate::console::Console;
use crate::output::{Asked, report_misplaced};
use anyhow::anyhow;
use book::{Book, BookRefusal};
use books::{BLANK, Grid, Holdback, Journal, Laid};
use script::{BookChoice, BookKind};
use std::alloc::Global;
use std::io;
use std::io::Write;
use std::ops::ControlFlow;
use text::{Script, Unread, read_line};

/// Room for the amounts of the largest book: 64 accounts with 128 resources.
const PLACES: usize = 8_192;

/// Carries out the lines before the first that needs the book; whether each was understood.
fn set_up<C: Console, W: Write>(
    console: &C,
    out: &mut W,
    script: &mut Script,
    chosen: &mut Option<BookChoice>,
    amounts: &mut [u64],
) -> io::Result<bool> {
    let mut understood = true;
    let mut ahead = *script;
    while let Some((number, line)) = ahead.next() {
        let asked = Asked { number, line };
        understood &= match read_line(line) {
            Ok(None) => true,
            Err(Unread) => report_misplaced(out, asked)?,
            Ok(Some(command)) if chosen.is_some() && console.needs_book(command) => {
                return Ok(understood);
            }
            Ok(Some(command)) => console.prepare(out, asked, chosen, amounts, command)?,
        };
        *script = ahead;
    }
    Ok(understood)
}

/// Carries out the rest of the script on the book, with the holdback layer over it; whether each line was understood.
fn serve<C: Console, B: Book + Drop, W: Write>(
    console: &C,
    out: &mut W,
    mut script: Script,
    below: B,
) -> anyhow::Result<bool> {
    let mut book = Holdback::over(below);
    let mut understood = true;
    while let Some((number, line)) = script.next() {
        let asked = Asked { number, line };
        understood &= match read_line(line) {
            Ok(None) => true,
            Err(Unread) => report_misplaced(out, asked)?,
            Ok(Some(command)) if console.takes_over(command) => {
                match console.take_over(out, script, asked, &mut book, command)? {
                    ControlFlow::Continue(understood) => understood,
                    ControlFlow::Break(rest) => return Ok(understood && rest),
                }
            }
            Ok(Some(command)) => console.obey(out, asked, &mut book, command)?,
        };
    }
    Ok(understood)
}

fn unfit(_: BookRefusal) -> anyhow::Error {
    anyhow!("amounts that no book can be laid over")
}

/// Runs a script; whether each line was understood.
pub fn run<C: Console, W: Write>(
    heap: Global,
    console: &C,
    out: &mut W,
    text: &[u8],
) -> anyhow::Result<bool> {
    let mut amounts = [0; PLACES];
    let mut script = Script::over(text);
    let mut chosen = None;
    let understood = set_up(console, out, &mut script, &mut chosen, &mut amounts)?;
    let Some(book) = chosen else {
        return Ok(understood);
    };
    let places = book.accounts as usize * book.resources as usize;
    let Some(opening) = amounts.get_mut(..places) else {
        return Err(anyhow!("a book larger than its memory"));
    };
    let served = match book.kind {
        BookKind::Grid => {
            let laid = Laid::over(book.accounts, book.resources, opening).map_err(unfit)?;
            serve(console, out, script, Grid::over(laid, book.count))?
        }
        BookKind::Journal => {
            let laid = Laid::over(book.accounts, book.resources, &*opening).map_err(unfit)?;
            let mut postings = vec![in heap; BLANK; book.count as usize]?;
            serve(console, out, script, Journal::over(laid, &mut postings))?
        }
    };
    Ok(understood && served)
}
