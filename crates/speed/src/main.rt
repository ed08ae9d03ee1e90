//! Checks a full register once for each byte of the input: 'g' one whose deals' lines lie together, any other byte one whose lines take
//! turns. A longer input is so many more checks and nothing else: the
//! cost of one check is the difference of two runs, by the difference of their lengths.
#![tactic(auto)]

use memory::{Deal, Head, Line, NO_DEAL, NO_LINE, Next, Phase, Register, Used, Weighing};
use std::io::Read;
use valuation::Currency;

const DEALS: u32 = 64;

const LINES: u32 = 1_024;

const EACH: u32 = 16;

const PART: u64 = 1_000_000_007;

fn fill_deals(deals: &mut [Deal]) {
    let mut number: u32 = 0;
    for deal in deals.iter_mut() {
        number = number.wrapping_add(1);
        *deal = Deal {
            number,
            giver: number % 64,
            taker: number.wrapping_add(1) % 64,
            currency: Currency::Usd,
            class: 65_535,
            weighing: Weighing::Margin,
            margin: 5_000,
            sought: 1_000_000_000_000,
            rate: 200_000,
            due: 65_535,
            limit: true,
            cash: PART * EACH as u64,
            whole: 1_000_000,
            residue: 359_999_999,
        };
    }
}

/// Lines of deals 1 to 64, which lie together or take turns.
fn fill_lines(lines: &mut [Line], together: bool) {
    let mut number: u32 = 0;
    for line in lines.iter_mut() {
        let deal = if together {
            number / EACH % DEALS
        } else {
            number.wrapping_mul(23) % DEALS
        };
        number = number.wrapping_add(1);
        *line = Line {
            number,
            deal: deal + 1,
            security: 3 + number % 125,
            quantity: 1_000_000_000,
            part: PART,
        };
    }
}

/// Changes a deal and a line to ones that are as sound, so that no check can stand in for the next.
fn touch(deals: &mut [Deal], lines: &mut [Line], byte: u8) {
    if let Some(deal) = deals.get_mut(byte as usize % 64) {
        deal.class = byte as u16;
    }
    if let Some(line) = lines.get_mut(byte as usize) {
        line.quantity = 1 + byte as u64;
    }
}

fn is_sound(head: &Head, deals: &[Deal], lines: &[Line]) -> bool {
    Register { head, deals, lines }.check(64, 128).is_ok()
}

/// How many checks find nothing.
fn sound_checks(
    input: &[u8],
    head: &Head,
    deals: &mut [Deal],
    together: &mut [Line],
    in_turns: &mut [Line],
) -> u64 {
    let mut sound: u64 = 0;
    for byte in input {
        let found = if *byte == b'g' {
            touch(deals, together, *byte);
            is_sound(head, deals, together)
        } else {
            touch(deals, in_turns, *byte);
            is_sound(head, deals, in_turns)
        };
        if found {
            sound = sound.wrapping_add(1);
        }
    }
    sound
}

fn main(rt: HostRuntime) -> anyhow::Result<()> {
    let heap = rt.alloc();
    let mut input = Vec::new(heap);
    rt.stdin().read_to_end(&mut input)?;
    let head = Head {
        date: 10_000,
        phase: Phase::Day,
        next: Next {
            deal: DEALS + 1,
            line: LINES + 1,
        },
        used: Used {
            deals: DEALS,
            lines: LINES,
        },
    };
    let mut deals = [NO_DEAL; 64];
    fill_deals(&mut deals);
    let mut together = [NO_LINE; 1024];
    fill_lines(&mut together, true);
    let mut in_turns = [NO_LINE; 1024];
    fill_lines(&mut in_turns, false);
    let sound = sound_checks(&input, &head, &mut deals, &mut together, &mut in_turns);
    println!(rt; "{sound} of {} checks find nothing", input.len())?;
    Ok(())
}
