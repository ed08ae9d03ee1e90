//! Lines that come into their table, send back a quantity, and go at 0.
ghost use Rattle.std.specs.Prelude.{◌≡◌, ◌+◌, ◌-◌, ◌≤◌, ◌&&◌, if◌then◌else◌, slice_set};
ghost use Rattle.memory.specs.Rows.{no_line, using_lines};
ghost use Rattle.memory.specs.Sound.{return_number};
ghost use Rattle.tables.specs.Rows.{has_room, less_quantity, lowers, empties, lowered_in};
ghost use Rattle.tables.specs.Stays.{AddsFilled, LowersFilled};

use crate::gap::{add, fit, remove};
use memory::{Head, Line};

/// Adds a line after the used ones. False, and nothing changes, where it has no place.
pub fn add_line(head: &mut Head, lines: &mut [Line], line: Line) -> bool
    ensures answer { result ≡ has_room 1024 head.old.used.lines lines.old }
    ensures lines { lines.new ≡ (if has_room 1024 head.old.used.lines lines.old then slice_set lines.old head.old.used.lines line else lines.old) }
    ensures head { head.new ≡ (if has_room 1024 head.old.used.lines lines.old then using_lines (head.old.used.lines + 1) head.old else head.old) }
    ensures filled { AddsFilled return_number no_line 1024 line head.old.used.lines lines.old head.new.used.lines lines.new }
{
    add(head, lines, line)
}

/// Takes a quantity off a line that has as much.
fn lower(line: &mut Line, quantity: u64)
    requires { quantity ≤ line.old.quantity }
    ensures { line.new ≡ less_quantity quantity line.old }
{
    line.quantity -= quantity;
}

/// Takes a quantity off the line at `row`; a line at 0 goes, and those after it move up. False, and nothing
/// changes, where no used row is there or it has less.
pub fn lower_line(head: &mut Head, lines: &mut [Line], row: usize, quantity: u64) -> bool
    ensures answer { result ≡ lowers head.old.used.lines row quantity lines.old }
    ensures lines { lines.new ≡ (if lowers head.old.used.lines row quantity lines.old then lowered_in head.old.used.lines row quantity lines.old else lines.old) }
    ensures head { head.new ≡ (if lowers head.old.used.lines row quantity lines.old && empties row quantity lines.old then using_lines (head.old.used.lines - 1) head.old else head.old) }
    ensures filled { LowersFilled row quantity head.old.used.lines lines.old head.new.used.lines lines.new }
{
    let used = head.used.lines;
    if row >= used as usize || !fit(lines, used) || quantity > lines[row].quantity {
        return false;
    }
    if lines[row].quantity == quantity {
        return remove(head, lines, row);
    }
    lower(&mut lines[row], quantity);
    true
}
