//! The start of a register.
ghost use Rattle.std.specs.Prelude.{◌≡◌, ℕ, ◌<◌, true, length, replicate, OnOk};
ghost use Rattle.memory.specs.Begin.{sized, sizes_fault, begun, fresh_head, Faultless};
ghost use Rattle.memory.specs.Register.{checked};
ghost use Rattle.memory.specs.Rows.{no_deal, no_line};

use crate::place::{Fault, Table};
use crate::row::{Deal, Head, Line, NO_DEAL, NO_LINE, Next, Phase, Used};

/// Leaves no row used.
fn clear(deals: &mut [Deal], lines: &mut [Line])
    ensures deals { deals.new ≡ replicate (length deals.old) no_deal }
    ensures lines { lines.new ≡ replicate (length lines.old) no_line }
{
    deals.fill(NO_DEAL);
    lines.fill(NO_LINE);
}

/// Writes a register that no rule speaks against.
fn write_fresh(head: &mut Head, deals: &mut [Deal], lines: &mut [Line], fresh: Head, date: u16)
    requires { (fresh ≡ fresh_head date) × ((sized (length deals.old) 64 ≡ true) × (sized (length lines.old) 1024 ≡ true)) }
    ensures head { head.new ≡ fresh_head date }
    ensures deals { deals.new ≡ replicate (length deals.old) no_deal }
    ensures lines { lines.new ≡ replicate (length lines.old) no_line }
    ensures sound { Faultless head.new deals.new lines.new }
{
    *head = fresh;
    clear(deals, lines);
}

/// Starts a register at a date, with no rows in use; a table of a wrong length is a fault, and then nothing changes.
pub fn begin(
    head: &mut Head,
    deals: &mut [Deal],
    lines: &mut [Line],
    date: u16,
) -> Result<(), Fault>
    ensures answer { result ≡ checked (sizes_fault (length deals.old) (length lines.old)) }
    ensures head { head.new ≡ begun (sizes_fault (length deals.old) (length lines.old)) (fresh_head date) head.old }
    ensures deals { deals.new ≡ begun (sizes_fault (length deals.old) (length lines.old)) (replicate (length deals.old) no_deal) deals.old }
    ensures lines { lines.new ≡ begun (sizes_fault (length deals.old) (length lines.old)) (replicate (length lines.old) no_line) lines.old }
    ensures sound { OnOk result (Faultless head.new deals.new lines.new) }
{
    if deals.is_empty() || deals.len() > 64 {
        return Err(Fault {
            table: Table::Deals,
            row: 0,
        });
    }
    if lines.is_empty() || lines.len() > 1_024 {
        return Err(Fault {
            table: Table::Lines,
            row: 0,
        });
    }
    let fresh = Head {
        date,
        phase: Phase::Day,
        next: Next { deal: 1, line: 1 },
        used: Used { deals: 0, lines: 0 },
    };
    write_fresh(head, deals, lines, fresh, date);
    Ok(())
}
