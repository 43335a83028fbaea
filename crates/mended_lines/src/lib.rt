// One line as Repair mends it (document 02, Ask 2): its bytes in the mended database, and its records.
#![tactic(auto)]

ghost use Rattle.std.specs.Prelude.{◌≤◌, ◌≡◌, length, Some};
ghost use Rattle.spec.specs.Lines.{line_at};
ghost use Rattle.spec.specs.Repair.{own_bytes, mend_line};
ghost use Rattle.field_bounds.specs.Answers.{field_at, NamesPassed};
ghost use Rattle.mended_fields.specs.Parts.{Put};
ghost use Rattle.mended_lines.specs.Lines.{OwnEnd, changed_line, LineMended};

use field_bounds::{AfterNames, after_names, copy_field, next_bounds};
use lines::{is_ignored, line_end};
use mended_fields::{RECORD_SIZE, put_record, record_fields, write_kept};
use spec::Amounts;
use stores::{put_after, put_bytes};

// "Reasons are 1 to 5": a line without a colon. Numbers, as in `mended_fields`.
const NO_COLON: usize = 1;

// The place behind the line at a place: behind its closing newline, or the end of the database.
fn after_line(db: &[u8], at: usize) -> usize
    requires { at ≤ length db.now }
    ensures { OwnEnd db.now at result }
{
    let end = line_end(db, at);
    if end < db.len() { end + 1 } else { end }
}

// "An unchanged one keeps every byte." Answers the bytes of the line at a place.
fn put_own(db: &[u8], at: usize, text: &mut [u8], to: usize) -> usize
    requires { at ≤ length db.now }
    ensures { Put (own_bytes db.now at) text.old to text.new result }
{
    let end = after_line(db, at);
    put_bytes(text, to, &db[at..end]);
    end - at
}

// "A changed line is written joined": its names and their colon, and its fields that are kept.
fn put_changed(
    db: &[u8],
    at: usize,
    start: AfterNames,
    reason: u8,
    text: &mut [u8],
    to: usize,
) -> usize
    requires { (length db.now ≤ 1048576) × NamesPassed db.now at (Some start) × (to ≤ 1073741824) }
    ensures { Put (changed_line (line_at db.now at) reason) text.old to text.new result }
{
    copy_field(db, at, text, to);
    put_after(text, to, start.names, b':');
    let n = start.names + 1;
    n + write_kept(&db[start.fields..], reason, text, to + n)
}

// The length of the text of the field, or of the line without a colon, at a place.
fn field_length(db: &[u8], at: usize) -> usize
    ensures { result ≡ length (field_at db.now at) }
{
    match next_bounds(db, at) {
        Some(field) => field.length,
        None => 0,
    }
}

// Writes the line that starts at a place, mended, to `text` from `to` on, and its records to `records` from `from` on. What has no room is
// not stored. A buffer and a place in it stay two arguments, as in `mended_fields`.
pub fn mend_line(
    db: &[u8],
    at: usize,
    number: usize,
    reason: u8,
    text: &mut [u8],
    to: usize,
    records: &mut [u8],
    from: usize,
) -> Amounts
    requires { (length db.now ≤ 1048576) × (at ≤ length db.now) × (to ≤ 1073741824) × (from ≤ 1073741824) }
    ensures { LineMended (mend_line db.now reason number (record { start = at; text = line_at db.now at }))
        text.old to text.new records.old from records.new result }
{
    if is_ignored(db, at) {
        return Amounts {
            bytes: put_own(db, at, text, to),
            records: 0,
        };
    }
    let Some(start) = after_names(db, at) else {
        put_record(records, from, number, 0, NO_COLON, field_length(db, at));
        return Amounts {
            bytes: 0,
            records: 1,
        };
    };
    let removed = record_fields(
        &db[start.fields..],
        number,
        start.names + 1,
        reason,
        records,
        from,
    );
    if removed == 0 {
        return Amounts {
            bytes: put_own(db, at, text, to),
            records: 0,
        };
    }
    Amounts {
        bytes: put_changed(db, at, start, reason, text, to),
        records: removed / RECORD_SIZE,
    }
}
