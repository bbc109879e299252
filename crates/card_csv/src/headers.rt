// The header of the text: written, and told from a line.
#![tactic(auto, using(card::proofs::Writing::appending))]

ghost use Rattle.std.specs.Prelude.{◌≡◌, ◌+◌, ◌≤◌, length};
ghost use Rattle.card.specs.Text.{Appends};
ghost use Rattle.code.specs.Call.{same_bytes};
ghost use Rattle.card_csv.specs.Text.{header_names, header_with, sheets_header};
ghost use Rattle.card_csv.specs.Reading.{header_in};
ghost use Rattle.card_csv.specs.inner.Room.{header_room};

use crate::Header;
use crate::columns::put_times;
use crate::fields::trimmed;
use card::text::Text;
use check::same;

// The room that the header needs.
pub const HEADER_TEXT: usize = 599;

// Writes the names before the times.
fn put_names(out: &mut Text, full: bool)
    requires { 22 ≤ out.old.room }
    ensures text { Appends out.old (header_names full) out.new }
    ensures upper_bound { out.old.room ≤ 22 + out.new.room }
{
    if full {
        out.put_bytes(b"slot,date,pump,changed");
    } else {
        out.put_bytes(b"date,pump");
    }
}

// Writes the columns of a header.
#[tactic(auto, using(card::proofs::Writing::appending), unfolding(crate::specs::Text::header_with))]
fn put_columns(out: &mut Text, full: bool)
    requires { header_room ≤ out.old.room }
    ensures text { Appends out.old (header_with full) out.new }
    ensures upper_bound { out.old.room + 1 ≤ header_room + out.new.room }
{
    put_names(out, full);
    put_times(out);
}

// Writes the header with all columns. No entry point: it requires room for it.
pub fn put_header(out: &mut Text)
    requires { header_room ≤ out.old.room }
    ensures { Appends out.old sheets_header out.new }
{
    put_columns(out, true);
    out.put_byte(b'\n');
}

// Is the text the header with these columns?
fn is_header(text: &[u8], full: bool) -> bool
    ensures { result ≡ same_bytes text.now (header_with full) }
{
    let mut out = [0u8; HEADER_TEXT];
    let mut header = Text::new(&mut out);
    put_columns(&mut header, full);
    same(text, header.as_bytes())
}

// Which header the line is.
pub fn header_in(line: &[u8]) -> Header
    ensures { result ≡ header_in line.now }
{
    let text = trimmed(line);
    if is_header(text, true) {
        return Header::Full;
    }
    if is_header(text, false) {
        return Header::Short;
    }
    Header::Other
}
