// What every text here is made of. Each function requires room for its text.
#![tactic(auto, using(card::proofs::Writing::appending))]

ghost use Rattle.std.specs.Prelude.{◌+◌, ◌≤◌, length};
ghost use Rattle.card.specs.Text.{Appends};
ghost use Rattle.sheet.specs.Demands.{SheetSymbols};
ghost use Rattle.show.specs.Text.{labelled, dated_lines};
ghost use Rattle.show.specs.inner.Room.{longest_digits, longest_dated};

use card::text::Text;
use card_csv::columns::put_date;
use sheet::PUMP;

// A label, and a number behind it.
pub(crate) fn put_labelled(out: &mut Text, label: &[u8], n: u64)
    requires { length label.now + longest_digits ≤ out.old.room }
    ensures text { Appends out.old (labelled label.now n) out.new }
    ensures upper_bound { out.old.room ≤ length label.now + longest_digits + out.new.room }
{
    out.put_bytes(label);
    out.put_decimal(n);
}

// The lines of date and pump of a day sheet with these symbols.
#[tactic(auto, using(card::proofs::Writing::appending), unfolding(crate::specs::Text::dated_lines))]
pub(crate) fn put_dated(out: &mut Text, ss: &[u8])
    requires { SheetSymbols ss.now × (longest_dated ≤ out.old.room) }
    ensures text { Appends out.old (dated_lines ss.now) out.new }
    ensures upper_bound { out.old.room ≤ longest_dated + out.new.room }
{
    out.put_bytes(b"date ");
    put_date(out, ss);
    put_labelled(out, b"\npump ", ss[PUMP] as u64);
    out.put_byte(b'\n');
}
