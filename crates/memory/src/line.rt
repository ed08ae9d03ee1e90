//! A line's row among the others of its table.
ghost use Rattle.memory.specs.Rows.{no_line, using_lines};
ghost use Rattle.memory.specs.Sound.{return_number, zero_line};
ghost use Rattle.std.proofs.Common.{rules, refl};

use crate::kept::Row;
use crate::row::{Head, Line, NO_LINE, Used};

impl Row for Line {
    const MOST: usize = 1_024;

    ghost MOST = { 1024 };

    const NONE: Line = NO_LINE;

    ghost NONE = { no_line };

    ghost blank = { zero_line };

    ghost key = { return_number };

    ghost used = { λ h. h.used.lines };

    ghost using = { using_lines };

    ghost few = { Prim.search rules };

    ghost used_back = { λ n h. Prim.search rules };

    ghost blanks = { λ l. refl };

    fn number(&self) -> u32 {
        self.number
    }

    fn used(head: &Head) -> u32 {
        head.used.lines
    }

    fn set_used(head: &mut Head, count: u32) {
        head.used = Used {
            lines: count,
            ..head.used
        };
    }
}
