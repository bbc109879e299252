// A record as text for people. Each function requires room for its text.
#![tactic(auto, using(card::proofs::Writing::appending))]

ghost use Rattle.std.specs.Prelude.{◌≡◌, ◌+◌, ◌*◌, ◌≤◌, ◌<◌, min, length};
ghost use Rattle.field.specs.Question.{refusal};
ghost use Rattle.card.specs.Record.{record_size, erasure_bytes, count_of, record_of, copy_written};
ghost use Rattle.card.specs.Text.{Appends};
ghost use Rattle.sheet.specs.Sheet.{sheet_size};
ghost use Rattle.sheet.specs.Demands.{SheetSymbols};
ghost use Rattle.report.specs.Day.{day_of};
ghost use Rattle.show.specs.Text.{texts};
ghost use Rattle.show.specs.Look.{spaced_at, listed, header_text, syndromes_text, place_line, place_lines, hour_sum, hour_line};
ghost use Rattle.show.specs.Look.{sheet_lines, day_text, refused_text, restoring_text, record_text, written_text, look_text};
ghost use Rattle.show.specs.inner.Looks.{longest_spaced, longest_list, longest_header, longest_syndromes, longest_place, longest_places};
ghost use Rattle.show.specs.inner.Looks.{longest_hour, longest_day, longest_refused, longest_restoring, longest_look};

use crate::text::{put_dated, put_labelled};
use card::cards::is_blank;
use card::records::{ERASURE_BYTES, HEADER, RECORD, restored_copy};
use card::text::Text;
use card::words::put_refusal;
use code::word::Place;
use code::word_length;
use field::Question;
use report::day::read_day;

// The numbers, each behind a space.
#[tactic(auto, using(crate::proofs::Texts::texts_steps))]
fn put_numbers(out: &mut Text, xs: &[u8])
    requires { length xs.now * longest_spaced ≤ out.old.room }
    ensures text { Appends out.old (texts (spaced_at xs.now) (length xs.now)) out.new }
    ensures upper_bound { out.old.room ≤ length xs.now * longest_spaced + out.new.room }
{
    for x in xs {
        put_labelled(out, b" ", *x as u64);
    }
}

// The rest of a line with at most five numbers.
#[tactic(auto, using(card::proofs::Writing::appending), unfolding(crate::specs::Look::listed))]
fn put_list(out: &mut Text, xs: &[u8])
    requires { (length xs.now ≤ 5) × (longest_list ≤ out.old.room) }
    ensures text { Appends out.old (listed xs.now) out.new }
    ensures upper_bound { out.old.room ≤ longest_list + out.new.room }
{
    if xs.is_empty() {
        return out.put_bytes(b" none\n");
    }
    put_numbers(out, xs);
    out.put_byte(b'\n');
}

// The number of erasures that the record names, as far as there are bytes for them.
fn named_count(bytes: &[u8]) -> usize
    requires { length bytes.now ≡ record_size }
    ensures { result ≡ min erasure_bytes (count_of bytes.now) }
{
    ERASURE_BYTES.min(bytes[1] as usize)
}

// The lines of width and erasures.
fn put_header(out: &mut Text, bytes: &[u8])
    requires { (length bytes.now ≡ record_size) × (longest_header ≤ out.old.room) }
    ensures text { Appends out.old (header_text bytes.now) out.new }
    ensures upper_bound { out.old.room ≤ longest_header + out.new.room }
{
    put_labelled(out, b"width ", bytes[0] as u64);
    out.put_bytes(b"\nerasures");
    put_list(out, &bytes[2..2 + named_count(bytes)]);
}

// The line of the syndromes, where they are shown.
fn put_syndromes(out: &mut Text, bytes: &[u8])
    requires { (length bytes.now ≡ record_size) × (longest_syndromes ≤ out.old.room) }
    ensures text { Appends out.old (syndromes_text bytes.now) out.new }
    ensures upper_bound { out.old.room ≤ longest_syndromes + out.new.room }
{
    let width = bytes[0];
    let last = 2 + named_count(bytes);
    let end = HEADER + word_length(width);
    if let Ok(sums) = code::syndromes(width, &bytes[HEADER..end], &bytes[2..last]) {
        out.put_bytes(b"syndromes");
        put_list(out, &sums);
    }
}

// The line of place p, where its symbol a would become b.
#[tactic(auto, using(card::proofs::Writing::appending), unfolding(crate::specs::Look::place_line))]
fn put_place(out: &mut Text, p: Place, a: u8, b: u8)
    requires { longest_place ≤ out.old.room }
    ensures text { Appends out.old (place_line p.0 a b) out.new }
    ensures upper_bound { out.old.room ≤ longest_place + out.new.room }
{
    if a != b {
        put_labelled(out, b"place ", p.0 as u64);
        put_labelled(out, b": ", a as u64);
        put_labelled(out, b" -> ", b as u64);
        out.put_byte(b'\n');
    }
}

// The lines of the places at which the record and the restored one differ.
#[tactic(auto, using(crate::proofs::Texts::texts_steps))]
fn put_places(out: &mut Text, old: &[u8], new: &[u8])
    requires { (length old.now ≡ record_size) × (length new.now ≡ record_size) × (longest_places ≤ out.old.room) }
    ensures text { Appends out.old (place_lines old.now new.now) out.new }
    ensures upper_bound { out.old.room ≤ longest_places + out.new.room }
{
    for p in 0..132 {
        put_place(out, Place(p as u8), old[HEADER + p], new[HEADER + p]);
    }
}

// The starts in an hour of the day.
fn hour_sum(ss: &[u8], h: usize) -> u64
    requires { (length ss.now ≡ sheet_size) × (h < 24) }
    ensures { result ≡ hour_sum ss.now h }
{
    ss[4 * h] as u64 + ss[4 * h + 1] as u64 + ss[4 * h + 2] as u64 + ss[4 * h + 3] as u64
}

// The line of an hour.
#[tactic(auto, using(card::proofs::Writing::appending), unfolding(crate::specs::Look::hour_line))]
fn put_hour(out: &mut Text, ss: &[u8], h: usize)
    requires { (length ss.now ≡ sheet_size) × (h < 24) × (longest_hour ≤ out.old.room) }
    ensures text { Appends out.old (hour_line ss.now h) out.new }
    ensures upper_bound { out.old.room ≤ longest_hour + out.new.room }
{
    put_labelled(out, b"hour ", h as u64);
    put_labelled(out, b": ", hour_sum(ss, h));
    out.put_byte(b'\n');
}

// The lines of all hours.
#[tactic(auto, using(crate::proofs::Texts::texts_steps))]
fn put_hours(out: &mut Text, ss: &[u8])
    requires { (length ss.now ≡ sheet_size) × (24 * longest_hour ≤ out.old.room) }
    ensures text { Appends out.old (texts (hour_line ss.now) 24) out.new }
    ensures upper_bound { out.old.room ≤ 24 * longest_hour + out.new.room }
{
    for h in 0..24 {
        put_hour(out, ss, h);
    }
}

// The lines of a day sheet with these symbols.
#[tactic(auto, using(card::proofs::Writing::appending), unfolding(crate::specs::Look::sheet_lines))]
fn put_sheet(out: &mut Text, ss: &[u8])
    requires { SheetSymbols ss.now × (longest_day ≤ out.old.room) }
    ensures text { Appends out.old (sheet_lines ss.now) out.new }
    ensures upper_bound { out.old.room ≤ longest_day + out.new.room }
{
    put_dated(out, ss);
    put_hours(out, ss);
}

// The lines of the day sheet that the record holds, if it holds one.
fn put_day(out: &mut Text, bytes: &[u8])
    requires { longest_day ≤ out.old.room }
    ensures text { Appends out.old (day_text (day_of bytes.now)) out.new }
    ensures upper_bound { out.old.room ≤ longest_day + out.new.room }
{
    if let Ok(day) = read_day(bytes) {
        put_sheet(out, &day.symbols);
    }
}

// The line of record n where it is refused.
#[tactic(auto, using(card::proofs::Writing::appending), unfolding(crate::specs::Look::refused_text))]
fn put_refused(out: &mut Text, n: u64, q: Question)
    requires { longest_refused ≤ out.old.room }
    ensures { Appends out.old (refused_text n (refusal q)) out.new }
{
    out.put_bytes(b"refused: ");
    put_refusal(out, n, q);
}

// What restoring makes of record n.
fn put_restoring(out: &mut Text, n: u64, bytes: &[u8])
    requires { (length bytes.now ≡ record_size) × (longest_restoring ≤ out.old.room) }
    ensures { Appends out.old (restoring_text n (record_of bytes.now) bytes.now (copy_written bytes.now) (day_of bytes.now)) out.new }
{
    match restored_copy(bytes) {
        Ok(restored) => {
            put_labelled(
                out,
                b"accepted, wrong symbols changed: ",
                restored.changed as u64,
            );
            out.put_byte(b'\n');
            put_places(out, bytes, &restored.bytes);
            put_day(out, bytes);
        }
        Err(q) => put_refused(out, n, q),
    }
}

// The text of a whole record with the number n.
fn put_record(out: &mut Text, n: u64, bytes: &[u8])
    requires { (length bytes.now ≡ record_size) × (longest_header + longest_syndromes + longest_restoring ≤ out.old.room) }
    ensures { Appends out.old (record_text n bytes.now) out.new }
{
    put_header(out, bytes);
    put_syndromes(out, bytes);
    put_restoring(out, n, bytes);
}

// The text of a slot that is not blank.
fn put_written(out: &mut Text, n: u64, slot: &[u8])
    requires { longest_header + longest_syndromes + longest_restoring ≤ out.old.room }
    ensures { Appends out.old (written_text n slot.now) out.new }
{
    if slot.len() == RECORD {
        put_record(out, n, slot)
    } else {
        put_refused(out, n, Question::Length)
    }
}

// The whole text of the slot with the number n.
#[tactic(auto, using(card::proofs::Writing::appending), unfolding(crate::specs::Look::look_text))]
pub fn put_look(out: &mut Text, n: u64, slot: &[u8])
    requires { longest_look ≤ out.old.room }
    ensures { Appends out.old (look_text n slot.now) out.new }
{
    put_labelled(out, b"record ", n);
    out.put_byte(b'\n');
    if is_blank(slot) {
        out.put_bytes(b"blank\n")
    } else {
        put_written(out, n, slot)
    }
}
