// The fields of a line as Repair mends them: which are removed and why, their records, and the bytes of those that are kept. `s` is the
// part of the database that starts after a line's names; a field is taken as it is written, with its colon if it has one.
#![tactic(auto)]

ghost use Rattle.std.specs.Prelude.{◌≤◌, ◌≡◌, false, length};
ghost use Rattle.std.proofs.lemmas.List.Edits.{sets};
ghost use Rattle.spec.specs.Lists.{holds};
ghost use Rattle.spec.specs.Lines.{line_at};
ghost use Rattle.spec.specs.Choice.{either};
ghost use Rattle.spec.specs.Repair.{ends_in_backslash, removal_record};
ghost use Rattle.field_bounds.specs.Answers.{field_at};
ghost use Rattle.mended_fields.specs.Parts.{piece_at, ReasonFor, LinkUpTo, PartFound, record_if, records_from, written_if, kept_from, Put};

use field_bounds::{after_names, copy_field, field_byte};
use fields::{FieldRead, next_field};
use stores::{four_bytes, put_after, put_bytes};

// "Reasons are 1 to 5 for the five removals": a malformed field, and a field after the first link. 0 stands for what is kept. They stay
// numbers: the contracts of `record_fields` and `write_kept` speak of a reason, and of 0 for none, as the number that a record has.
const KEPT: u8 = 0;

const MALFORMED_FIELD: u8 = 2;

const AFTER_LINK: u8 = 3;

pub const RECORD_SIZE: usize = 16;

// A field with the reason for its removal, whether a link stands up to its end, its joined bytes with its colon, and the place behind it.
#[derive(Clone, Copy)]
pub struct NextPart {
    pub reason: u8,
    pub linked: bool,
    pub count: usize,
    pub next: usize,
}

// ---- why a field is removed

// "Remove malformed fields, and after a first link every other field that isn't ignored"; the first link by the line's reason.
fn field_reason(linked: bool, reason: u8, read: FieldRead) -> u8
    ensures { ReasonFor linked reason read result }
{
    match read {
        FieldRead::Malformed => MALFORMED_FIELD,
        FieldRead::Ignored => KEPT,
        FieldRead::Link(_) => { if linked { AFTER_LINK } else { reason } }
        _ => { if linked { AFTER_LINK } else { KEPT } }
    }
}

// Whether a link stands up to the end of a field, by whether one stands before it.
fn link_up_to(linked: bool, read: FieldRead) -> bool
    ensures { LinkUpTo linked read result }
{
    linked || matches!(read, FieldRead::Link(_))
}

fn next_part(s: &[u8], at: usize, linked: bool, reason: u8) -> Option<NextPart>
    ensures { PartFound s.now at linked reason result }
{
    let field = next_field(s, at)?;
    let part = NextPart {
        reason: field_reason(linked, reason, field.read),
        linked: link_up_to(linked, field.read),
        count: field.length,
        next: field.next,
    };
    match after_names(s, at) {
        Some(behind) => Some(NextPart {
            count: field.length + 1,
            next: behind.fields,
            ..part
        }),
        None => Some(part),
    }
}

// ---- records

// "Logical line from 0, byte place from 0 in the original joined line, reason, joined bytes removed, each 32 bits, high byte first."
pub fn put_record(out: &mut [u8], at: usize, line: usize, place: usize, reason: usize, count: usize)
    ensures { out.new ≡ sets out.old at (removal_record line place reason count) }
{
    let mut record = [0u8; RECORD_SIZE];
    put_bytes(&mut record, 0, &four_bytes(line as u64));
    put_bytes(&mut record, 4, &four_bytes(place as u64));
    put_bytes(&mut record, 8, &four_bytes(reason as u64));
    put_bytes(&mut record, 12, &four_bytes(count as u64));
    put_bytes(out, at, &record);
}

// The record of a field, if it is removed. Answers its bytes.
fn record_part(
    out: &mut [u8],
    at: usize,
    line: usize,
    place: usize,
    reason: u8,
    count: usize,
) -> usize
    ensures { Put (record_if line place reason count) out.old at out.new result }
{
    if reason == KEPT {
        return 0;
    }
    put_record(out, at, line, place, reason as usize, count);
    RECORD_SIZE
}

// The records of the fields that are removed, to `records` from `from` on; the first field stands at `place` of the joined line. Answers
// their bytes. What has no room is not stored. A buffer and a place in it stay two arguments, here and below: each caller has the buffer lent
// and lends it on, so a struct of both would be made and taken apart at each call, and the clauses would name its two fields.
pub fn record_fields(
    s: &[u8],
    line: usize,
    place: usize,
    reason: u8,
    records: &mut [u8],
    from: usize,
) -> usize
    requires { (length s.now ≤ 1048576) × (place ≤ 1048577) × (from ≤ 4294967296) }
    ensures { Put (records_from s.now line reason false place 0) records.old from records.new result }
{
    let mut at = 0;
    let mut linked = false;
    let mut here = place;
    let mut n: usize = 0;
    loop {
        let Some(part) = next_part(s, at, linked, reason) else {
            return n;
        };
        n += record_part(records, from + n, line, here, part.reason, part.count);
        here += part.count;
        linked = part.linked;
        at = part.next;
    }
}

// ---- the fields that are kept

// Whether the text of the field at a place ends in a backslash.
fn ends_in_backslash(s: &[u8], at: usize) -> bool
    ensures { result ≡ ends_in_backslash (field_at s.now at) }
{
    let mut i = at;
    let mut last = 0;
    loop {
        match field_byte(s, i) {
            Some((b, n)) => {
                last = b;
                i = n;
            }
            None => return last == b'\\',
        }
    }
}

// Whether a kept field of `n` bytes, or of `count` with its colon, is written with one: it has it, or it "would end in a backslash". A
// field without a colon is the last one.
fn takes_colon(s: &[u8], at: usize, n: usize, count: usize) -> bool
    requires { (n ≡ length (field_at s.now at)) × (count ≡ length (piece_at s.now at)) }
    ensures { result ≡ either (holds 58 (line_at s.now at)) (ends_in_backslash (field_at s.now at)) }
{
    n < count || ends_in_backslash(s, at)
}

// Writes the field at a place, if it is kept. Answers the bytes written.
fn write_part(s: &[u8], at: usize, reason: u8, count: usize, text: &mut [u8], to: usize) -> usize
    requires { (length s.now ≤ 1048576) × (count ≡ length (piece_at s.now at)) }
    ensures { Put (written_if reason (piece_at s.now at)) text.old to text.new result }
{
    if reason != KEPT {
        return 0;
    }
    let n = copy_field(s, at, text, to);
    if !takes_colon(s, at, n, count) {
        return n;
    }
    put_after(text, to, n, b':');
    n + 1
}

// Writes the fields that are kept, joined, to `text` from `to` on, "with a newline, and a colon before that newline if it would end in a
// backslash". Answers the bytes written. What has no room is not stored.
pub fn write_kept(s: &[u8], reason: u8, text: &mut [u8], to: usize) -> usize
    requires { (length s.now ≤ 1048576) × (to ≤ 4294967296) }
    ensures { Put (kept_from s.now reason false 0) text.old to text.new result }
{
    let mut at = 0;
    let mut linked = false;
    let mut n: usize = 0;
    loop {
        let Some(part) = next_part(s, at, linked, reason) else {
            put_after(text, to, n, b'\n');
            return n + 1;
        };
        n += write_part(s, at, part.reason, part.count, text, to + n);
        linked = part.linked;
        at = part.next;
    }
}
