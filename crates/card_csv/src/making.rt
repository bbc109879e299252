// A card made from a text: the lines that end in a part of the text are taken, and the records of their sheets written.
#![tactic(auto, using(card::proofs::Writing::appending))]

ghost use Rattle.std.specs.Prelude.{◌≡◌, true, ◌+◌, ◌^◌, ◌≤◌, length};
ghost use Rattle.card.specs.Record.{record_size};
ghost use Rattle.card.specs.Text.{Appends};
ghost use Rattle.sheet.specs.Demands.{SheetSymbols};
ghost use Rattle.card_csv.specs.Reading.{read_line, header_in};
ghost use Rattle.card_csv.specs.Record.{sheet_record};
ghost use Rattle.card_csv.specs.Making.{is_fine, header_read, sheet_read, line_read, line_record, line_made};
ghost use Rattle.card_csv.specs.inner.Room.{text_size, records_room};
ghost use Rattle.card_csv.specs.Making.{MakesRecords, MakesLast};
ghost use Rattle.card_csv.specs.inner.Taking.{HasRoom};

use crate::fields::find;
use crate::headers::header_in;
use crate::reader::read_line;
use crate::records::record_of;
use crate::{Header, Made, TextFault, TextState};
use card::text::Text;

// At most so many bytes of a text at once: no line of a sheet, and no header, is so long.
pub const TEXT: usize = 8192;

// The room for their records: 83 of 139 bytes, since a line of a sheet has at least 98 bytes with its end.
pub const RECORDS: usize = 11537;

// Was no line refused?
pub fn is_fine(s: TextState) -> bool
    ensures { result ≡ is_fine s.verdict }
{
    s.verdict.is_ok()
}

// Writes the record of a sheet.
fn put_record(out: &mut Text, symbols: &[u8])
    requires { (record_size ≤ out.old.room) × SheetSymbols symbols.now }
    ensures { Appends out.old (sheet_record symbols.now) out.new }
{
    out.put_bytes(&record_of(symbols));
}

// The first line: which columns the header names.
fn take_header(line: &[u8], s: TextState) -> TextState
    requires { s.lines ≤ 2 ^ 62 }
    ensures { result ≡ header_read s (header_in line.now) }
{
    let (full, verdict) = match header_in(line) {
        Header::Full => (true, Ok(())),
        Header::Short => (false, Ok(())),
        Header::Other => (false, Err(TextFault::NoHeader)),
    };
    TextState {
        full,
        lines: s.lines + 1,
        verdict,
    }
}

// A line below it: the record of its sheet is written, or it is refused.
fn take_sheet(line: &[u8], s: TextState, out: &mut Text) -> TextState
    requires { (s.lines ≤ 2 ^ 62) × HasRoom line.now out.old.room }
    ensures state { result ≡ sheet_read s (read_line s.full line.now) }
    ensures records { Appends out.old (line_record (read_line s.full line.now)) out.new }
{
    let lines = s.lines + 1;
    match read_line(line, s.full) {
        Ok(symbols) => {
            put_record(out, &symbols);
            TextState {
                lines,
                verdict: Ok(()),
                ..s
            }
        }
        Err(fault) => TextState {
            lines,
            verdict: Err(TextFault::Wrong(fault)),
            ..s
        },
    }
}

// The next line.
#[tactic(auto, using(card::proofs::Writing::appending), unfolding(crate::specs::Making::line_read, crate::specs::Making::line_made))]
fn take_line(line: &[u8], s: TextState, out: &mut Text) -> TextState
    requires { (is_fine s.verdict ≡ true) × (s.lines ≤ 2 ^ 62) × HasRoom line.now out.old.room }
    ensures state { result ≡ line_read s line.now }
    ensures records { Appends out.old (line_made s line.now) out.new }
{
    if s.lines == 0 {
        take_header(line, s)
    } else {
        take_sheet(line, s, out)
    }
}

// Takes the lines that end in the text, up to a refused one, where the text stood as s before them. The bound on the lines keeps every sum
// within 64 bits.
pub fn make_records(text: &[u8], s: TextState, out: &mut Text) -> Made
    requires { (is_fine s.verdict ≡ true) × (s.lines ≤ 2 ^ 56) × (length text.now ≤ text_size) × (records_room ≤ out.old.room) }
    ensures { MakesRecords text.now s out.old result out.new }
{
    let mut done = Made { state: s, taken: 0 };
    let mut rest = text;
    while let Some(n) = find(rest, b'\n') {
        let next = Made {
            state: take_line(&rest[..n], done.state, out),
            taken: done.taken + n + 1,
        };
        if !is_fine(next.state) {
            return next;
        }
        done = next;
        rest = &rest[n + 1..];
    }
    done
}

// Takes the last line of a text that has ended: it may come without its end.
pub fn make_last(line: &[u8], s: TextState, out: &mut Text) -> Made
    requires { (is_fine s.verdict ≡ true) × (s.lines ≤ 2 ^ 57) × (records_room ≤ out.old.room) }
    ensures { MakesLast line.now s out.old result out.new }
{
    if line.is_empty() {
        return Made { state: s, taken: 0 };
    }
    Made {
        state: take_line(line, s, out),
        taken: line.len(),
    }
}
