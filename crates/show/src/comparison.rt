// The text of two day sheets side by side. No function here is an entry point: each requires room for its text.
#![tactic(auto, using(card::proofs::Writing::appending))]

ghost use Rattle.std.specs.Prelude.{◌≡◌, ◌+◌, ◌*◌, ◌≤◌, ◌<◌, length};
ghost use Rattle.card.specs.Text.{Appends};
ghost use Rattle.sheet.specs.Sheet.{quarters, sheet_size};
ghost use Rattle.sheet.specs.Demands.{SheetSymbols};
ghost use Rattle.report.specs.Window.{starts_sum};
ghost use Rattle.report.specs.Compare.{choice};
ghost use Rattle.show.specs.Text.{texts};
ghost use Rattle.show.specs.Comparison.{starts_line, totals_line, chosen_line, quarter_line, quarter_at, beside_text, comparison_text};
ghost use Rattle.show.specs.inner.Comparison.{longest_starts, longest_totals, longest_chosen, longest_quarter, longest_comparison};
ghost use Rattle.show.specs.inner.Comparison.{AcceptedSlots};

use crate::text::{put_dated, put_labelled};
use card::text::Text;
use card_csv::columns::put_clock;
use report::compare::{Comparison, Side, chosen_part};
use report::day::read_day;
use sheet::QUARTERS;

// The room for the whole text.
pub const COMPARISON_TEXT: usize = 6876;

// The sum of some counts.
fn starts_sum(counts: &[u8]) -> u64
    requires { length counts.now ≤ quarters }
    ensures { result ≡ starts_sum counts.now }
{
    let mut sum = 0;
    for count in counts {
        sum += *count as u64;
    }
    sum
}

// The line of the starts of both sheets.
#[tactic(auto, using(card::proofs::Writing::appending), unfolding(crate::specs::Comparison::starts_line))]
fn put_starts(out: &mut Text, ss: &[u8], ts: &[u8])
    requires { (length ss.now ≡ sheet_size) × (length ts.now ≡ sheet_size) × (longest_starts ≤ out.old.room) }
    ensures text { Appends out.old (starts_line ss.now ts.now) out.new }
    ensures upper_bound { out.old.room ≤ longest_starts + out.new.room }
{
    put_labelled(out, b"starts: controller ", starts_sum(&ss[..QUARTERS]));
    put_labelled(out, b", cupboard ", starts_sum(&ts[..QUARTERS]));
    out.put_byte(b'\n');
}

// The line that tells how many quarter hours are of each kind.
#[tactic(auto, using(card::proofs::Writing::appending), unfolding(crate::specs::Comparison::totals_line))]
fn put_totals(out: &mut Text, x: Comparison)
    requires { longest_totals ≤ out.old.room }
    ensures text { Appends out.old (totals_line x.equal x.controller x.cupboard) out.new }
    ensures upper_bound { out.old.room ≤ longest_totals + out.new.room }
{
    put_labelled(out, b"quarter hours: equal ", x.equal as u64);
    put_labelled(out, b", controller higher ", x.controller as u64);
    put_labelled(out, b", cupboard higher ", x.cupboard as u64);
    out.put_byte(b'\n');
}

// The line that tells whose sheet is chosen.
fn put_chosen(out: &mut Text, x: Comparison)
    requires { longest_chosen ≤ out.old.room }
    ensures text { Appends out.old (chosen_line (choice x.choice)) out.new }
    ensures upper_bound { out.old.room ≤ longest_chosen + out.new.room }
{
    match x.choice {
        Side::Controller => out.put_bytes(b"chosen: controller\n"),
        Side::Cupboard => out.put_bytes(b"chosen: cupboard\n"),
    }
}

// The line of quarter hour i with the counts a and b, where they differ.
#[tactic(auto, using(card::proofs::Writing::appending), unfolding(crate::specs::Comparison::quarter_line))]
fn put_quarter(out: &mut Text, i: u8, a: u8, b: u8)
    requires { (longest_quarter ≤ out.old.room) × (i < quarters) }
    ensures text { Appends out.old (quarter_line i a b) out.new }
    ensures upper_bound { out.old.room ≤ longest_quarter + out.new.room }
{
    if a != b {
        put_clock(out, i);
        put_labelled(out, b" controller ", a as u64);
        put_labelled(out, b", cupboard ", b as u64);
        out.put_byte(b'\n');
    }
}

// The lines of all quarter hours in which the counts differ.
#[tactic(auto, using(crate::proofs::Texts::texts_steps))]
fn put_quarters(out: &mut Text, ss: &[u8], ts: &[u8])
    requires { (length ss.now ≡ sheet_size) × (length ts.now ≡ sheet_size) × (quarters * longest_quarter ≤ out.old.room) }
    ensures { Appends out.old (texts (quarter_at ss.now ts.now) quarters) out.new }
{
    for i in 0..QUARTERS {
        put_quarter(out, i as u8, ss[i], ts[i]);
    }
}

// The text of two sheets with the symbols ss and ts, of which x is the comparison; the chosen one has the symbols cs.
#[tactic(auto, using(card::proofs::Writing::appending), unfolding(crate::specs::Comparison::beside_text))]
fn put_sheets(out: &mut Text, x: Comparison, cs: &[u8], ss: &[u8], ts: &[u8])
    requires { SheetSymbols cs.now × (length ss.now ≡ sheet_size) × (length ts.now ≡ sheet_size) × (longest_comparison ≤ out.old.room) }
    ensures { Appends out.old (beside_text (choice x.choice) x.equal x.controller x.cupboard cs.now ss.now ts.now) out.new }
{
    put_dated(out, cs);
    put_starts(out, ss, ts);
    put_totals(out, x);
    put_chosen(out, x);
    put_quarters(out, ss, ts);
}

// The text of the slots a and b, each read as a day sheet, of which x is the comparison. The date and the pump are read from the chosen part.
pub fn put_comparison<'a>(out: &mut Text, x: Comparison, a: &'a [u8], b: &'a [u8])
    requires { AcceptedSlots a.now b.now x × (longest_comparison ≤ out.old.room) }
    ensures { Appends out.old (comparison_text a.now b.now) out.new }
{
    let controller = read_day(a).unwrap();
    let cupboard = read_day(b).unwrap();
    let chosen = read_day(chosen_part(a, 1, b, 1, Ok(x.choice))).unwrap();
    put_sheets(
        out,
        x,
        &chosen.symbols,
        &controller.symbols,
        &cupboard.symbols,
    )
}
