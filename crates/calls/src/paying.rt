//! The interest of a deal paid, and the deal gone.
ghost use Rattle.std.specs.Prelude.{◌≡◌, ◌-◌, ◌<◌, ◌≤◌, IfSome, length, is_ok, if◌then◌else◌, ◌==◌, slice_index_or};
ghost use Rattle.std.specs.List.{list_any};
ghost use Rattle.std.specs.Result.{result_map_both};
ghost use Rattle.book.specs.Lists.{run};
ghost use Rattle.drafts.specs.Drafts.{slips_of, movable, book_after, list_after};
ghost use Rattle.memory.specs.Rows.{no_deal};
ghost use Rattle.memory.specs.Sound.{used_lines};
ghost use Rattle.tables.specs.Rows.{without, using_deals};
ghost use Rattle.law.specs.Calls.{has_lines, pay as pay_call};
ghost use Rattle.law.specs.Outcomes.{outcome, after, written, listed};
ghost use Rattle.calls.specs.Clauses.{lent, count_by, GoesOn};
ghost use Rattle.calls.specs.Paying.{interest_slips, pay_answer, pay_head, pay_deals, pay_list, pay_book};

use book::Book;
use drafts::{Draft, move_slips};
use memory::{Deal, Head, Kind, Line, Phase, Register, Sense, Slip};
use sides::Refusal;
use tables::remove_deal;

/// Whether a line of the deal is among these.
fn any_on(lines: &[Line], number: u32) -> bool
    ensures { result ≡ list_any (λ l. l.deal == number) lines.now }
{
    lines.iter().any(|line| line.deal == number)
}

/// Whether a line of the deal stands.
fn has_lines(head: &Head, lines: &[Line], number: u32) -> bool
    requires { head.now.used.lines ≤ length lines.now }
    ensures { result ≡ has_lines number (used_lines head.now lines.now) }
{
    any_on(&lines[..head.used.lines as usize], number)
}

/// The slip of a deal's whole interest, if there is any.
fn draft_interest(deal: &Deal) -> Draft
    ensures { slips_of result ≡ interest_slips deal.now }
{
    let mut draft = Draft::empty();
    if deal.whole > 0 {
        let slip = Slip {
            kind: Kind::Pay,
            sense: Sense::Cash,
            deal: deal.number,
            number: 0,
            resource: deal.currency.number(),
            from: deal.giver,
            to: deal.taker,
            amount: deal.whole,
        };
        // An empty draft has room.
        draft.put(slip).unwrap();
    }
    draft
}

/// Pays the interest of the deal at `row`, and removes it.
fn pay_at<B: Book>(
    head: &mut Head,
    deals: &mut [Deal],
    list: &mut [Slip],
    book: &mut B,
    row: usize,
) -> Result<usize, Refusal>
    requires { (row < head.old.used.deals) × ((head.old.used.deals ≤ length deals.old) × (length deals.old ≤ 64)) }
    ensures answer { result ≡ result_map_both (λ _. length (interest_slips (slice_index_or deals.old row no_deal))) (λ e. e) (movable (B.Book.meaning book.old) (interest_slips (slice_index_or deals.old row no_deal)) (length list.old)) }
    ensures head { head.new ≡ (if is_ok (movable (B.Book.meaning book.old) (interest_slips (slice_index_or deals.old row no_deal)) (length list.old)) then using_deals (head.old.used.deals - 1) head.old else head.old) }
    ensures deals { deals.new ≡ (if is_ok (movable (B.Book.meaning book.old) (interest_slips (slice_index_or deals.old row no_deal)) (length list.old)) then without no_deal head.old.used.deals row deals.old else deals.old) }
    ensures list { list.new ≡ list_after (B.Book.meaning book.old) (interest_slips (slice_index_or deals.old row no_deal)) list.old }
    ensures book { B.Book.meaning book.new ≡ book_after (B.Book.meaning book.old) (interest_slips (slice_index_or deals.old row no_deal)) (length list.old) }
    ensures stays { B.Book.home book.new ≡ B.Book.home book.old }
{
    let draft = draft_interest(&deals[row]);
    move_slips(&draft, list, book)?;
    remove_deal(head, deals, row);
    Ok(draft.slips().len())
}

/// Pays the interest of the deal that was found at `row`, and removes it, if one was found and no line of it stands.
fn pay_found<B: Book>(
    head: &mut Head,
    deals: &mut [Deal],
    lines: &[Line],
    list: &mut [Slip],
    book: &mut B,
    number: u32,
    row: Option<usize>,
) -> Result<usize, Refusal>
    requires { (IfSome row (λ i. i < head.old.used.deals)) × ((head.old.used.deals ≤ length deals.old) × ((length deals.old ≤ 64) × (head.old.used.lines ≤ length lines.now))) }
    ensures answer { result ≡ pay_answer head.old deals.old lines.now (B.Book.meaning book.old) list.old number row }
    ensures head { head.new ≡ pay_head head.old deals.old lines.now (B.Book.meaning book.old) list.old number row }
    ensures deals { deals.new ≡ pay_deals head.old deals.old lines.now (B.Book.meaning book.old) list.old number row }
    ensures list { list.new ≡ pay_list head.old deals.old lines.now (B.Book.meaning book.old) list.old number row }
    ensures book { B.Book.meaning book.new ≡ pay_book head.old deals.old lines.now (B.Book.meaning book.old) list.old number row }
    ensures stays { B.Book.home book.new ≡ B.Book.home book.old }
{
    if let Phase::DayEnd = head.phase {
        return Err(Refusal::WrongPhase);
    }
    let row = row.ok_or(Refusal::NotStanding)?;
    if has_lines(head, lines, number) {
        return Err(Refusal::LinesStand);
    }
    pay_at(head, deals, list, book, row)
}

/// Pays the whole interest of a deal without lines from giver to taker, and removes it; how many slips were written.
pub fn pay<B: Book>(
    head: &mut Head,
    deals: &mut [Deal],
    lines: &[Line],
    list: &mut [Slip],
    book: &mut B,
    number: u32,
) -> Result<usize, Refusal>
    ensures answer { result ≡ count_by (outcome (pay_call (length list.old) number) (lent head.old deals.old lines.now (B.Book.meaning book.old))) }
    ensures world { lent head.new deals.new lines.now (B.Book.meaning book.new) ≡ after (pay_call (length list.old) number) (lent head.old deals.old lines.now (B.Book.meaning book.old)) }
    ensures slips { list.new ≡ listed (written (pay_call (length list.old) number) (lent head.old deals.old lines.now (B.Book.meaning book.old))) list.old }
    ensures stays { B.Book.home book.new ≡ B.Book.home book.old }
    ensures law { GoesOn (pay_call (length list.old) number) (lent head.old deals.old lines.now (B.Book.meaning book.old)) (lent head.new deals.new lines.now (B.Book.meaning book.new)) }
{
    let register = Register { head, deals, lines };
    let checked = register.check(book.accounts(), book.resources())?;
    let row = checked.find_deal(number);
    pay_found(head, deals, lines, list, book, number, row)
}
