// The text of a listing. No function here is an entry point: each requires room for its text.
#![tactic(auto, using(crate::proofs::Writing::appending))]

ghost use Rattle.std.specs.Prelude.{◌≡◌, [], ◌∷◌, ◌++◌, ◌+◌, ◌*◌, ◌^◌, ◌≤◌, ◌<◌, length};
ghost use Rattle.card.specs.Listing.{decimal, line_text, blank_line, total_line, more_line, record_line, slot_line, refusal_of, changes_of};
ghost use Rattle.card.specs.Listing.{counted, slot_further, part_lines, part_progress};
ghost use Rattle.code.specs.Call.{repair};
ghost use Rattle.card.specs.Record.{record_of};
ghost use Rattle.card.specs.inner.Room.{longest_line, longest_total, Within, further};
ghost use Rattle.card.specs.Batch.{batch_records, batch_size};
ghost use Rattle.card.specs.Text.{Appends};

use crate::cards::{is_blank, record_count, record_from};
use crate::records::{RECORD, probe};
use crate::text::Text;
use crate::{Progress, Totals};
use field::{Question, refusal_number};

// Writes the line of a record: its number, its byte 0, the refusal number and the number of changed places.
fn put_line(out: &mut Text, number: u64, width: u8, refusal: u8, changed: u8)
    requires { longest_line ≤ out.old.room }
    ensures { Appends out.old (line_text number width refusal changed) out.new }
{
    out.put_field(number, b' ');
    out.put_field(width as u64, b' ');
    out.put_field(refusal as u64, b' ');
    out.put_field(changed as u64, b'\n');
}

// Writes the line of a blank slot: its number, and the word.
fn put_blank(out: &mut Text, number: u64)
    requires { longest_line ≤ out.old.room }
    ensures { Appends out.old (blank_line number) out.new }
{
    out.put_field(number, b' ');
    out.put_bytes(b"blank\n");
}

// Writes the last line of a listing.
pub fn put_total(out: &mut Text, t: Totals)
    requires { longest_total ≤ out.old.room }
    ensures { Appends out.old (total_line t) out.new }
{
    out.put_bytes(b"total ");
    out.put_field(t.accepted, b' ');
    out.put_field(t.refused, b' ');
    out.put_field(t.changed, b'\n');
}

// Writes the line that says that the card goes on.
pub fn put_more(out: &mut Text)
    requires { length more_line ≤ out.old.room }
    ensures { Appends out.old more_line out.new }
{
    out.put_bytes(b"more\n");
}

// The refusal number, 0 where the record is accepted.
fn refusal_of(answer: Result<u8, Question>) -> u8
    ensures { result ≡ refusal_of (repair answer) }
{
    match answer {
        Ok(_) => 0,
        Err(q) => refusal_number(q),
    }
}

// The number of changed places, 0 where the record is refused.
fn changes_of(answer: Result<u8, Question>) -> u8
    ensures { result ≡ changes_of (repair answer) }
{
    answer.unwrap_or(0)
}

// One record further: the next number, and the record counted.
pub fn advance(s: Progress, answer: Result<u8, Question>) -> Progress
    requires { Within (2 ^ 63) s }
    ensures { result ≡ further s (counted s.totals (repair answer)) }
{
    let next = s.next + 1;
    let t = s.totals;
    match answer {
        Ok(changed) => Progress {
            next,
            totals: Totals {
                accepted: t.accepted + 1,
                refused: t.refused,
                changed: t.changed + changed as u64,
            },
        },
        Err(_) => Progress {
            next,
            totals: Totals {
                accepted: t.accepted,
                refused: t.refused + 1,
                changed: t.changed,
            },
        },
    }
}

// Lists one record, of which there is at least one byte.
fn list_record(bytes: &[u8], s: Progress, out: &mut Text) -> Progress
    requires { (0 < length bytes.now) × (longest_line ≤ out.old.room) × Within (2 ^ 63) s }
    ensures text { Appends out.old (record_line s.next bytes.now) out.new }
    ensures progress { result ≡ further s (counted s.totals (record_of bytes.now)) }
{
    let answer = probe(bytes);
    put_line(
        out,
        s.next,
        bytes[0],
        refusal_of(answer),
        changes_of(answer),
    );
    advance(s, answer)
}

// Lists a blank slot, which enters no total.
fn list_blank(s: Progress, out: &mut Text) -> Progress
    requires { (longest_line ≤ out.old.room) × Within (2 ^ 63) s }
    ensures text { Appends out.old (blank_line s.next) out.new }
    ensures progress { result ≡ further s s.totals }
{
    put_blank(out, s.next);
    Progress {
        next: s.next + 1,
        totals: s.totals,
    }
}

// Lists one slot, of which there is at least one byte.
fn list_slot(slot: &[u8], s: Progress, out: &mut Text) -> Progress
    requires { (0 < length slot.now) × (longest_line ≤ out.old.room) × Within (2 ^ 63) s }
    ensures text { Appends out.old (slot_line s.next slot.now) out.new }
    ensures progress { result ≡ slot_further s slot.now }
{
    if is_blank(slot) {
        list_blank(s, out)
    } else {
        list_record(slot, s, out)
    }
}

// Lists the slots of a batch, whole ones and a shorter last piece, where the listing has come to s before it. The bound on the numbers
// keeps every sum within 64 bits.
pub fn list_records(batch: &[u8], s: Progress, out: &mut Text) -> Progress
    requires { (length batch.now ≤ batch_size) × (batch_records * longest_line ≤ out.old.room) × Within (2 ^ 62) s }
    ensures text { Appends out.old (part_lines s batch.now) out.new }
    ensures progress { result ≡ part_progress s batch.now }
{
    let mut done = s;
    for i in 0..record_count(batch.len()) {
        done = list_slot(record_from(batch, i * RECORD), done, out);
    }
    done
}
