// List and Flat: one pass over the fields of a chain, with a table of the capabilities that were met, writes what belongs to the winning
// ones. A store past a buffer's end is no store, so the pass measures in a buffer of one byte.
#![tactic(auto)]

ghost use Rattle.std.specs.Prelude.{◌≡◌, ◌+◌, ◌≤◌, ◌<◌, leb, length};
ghost use Rattle.std.proofs.lemmas.List.Edits.{sets};
ghost use Rattle.spec.specs.Lines.{line_at};
ghost use Rattle.spec.specs.Files.{files, contents};
ghost use Rattle.spec.specs.Fields.{split, fields_of};
ghost use Rattle.spec.specs.Chain.{placed, joined_fields};
ghost use Rattle.spec.specs.Answers.{written_report};
ghost use Rattle.spec.specs.Listing.{list_outcome, list_report, flat_outcome, flat_report};
ghost use Rattle.field_bounds.specs.Answers.{field_at};
ghost use Rattle.fields.specs.Readings.{Reads};
ghost use Rattle.chain.specs.Answers.{lines_of};
ghost use Rattle.capability_table.specs.Table.{is_first, marked};
ghost use Rattle.listing.specs.Answers.{record_bytes, won_if, SomeMarks, Took, one_field, Passes, most_for_line, farthest, WroteWinning};
ghost use Rattle.listing.specs.Answers.{flat_of, whole_of, BoundedChain, ServesAll, Put};

use capability_table::{CANCEL, NAMES, meet};
use chain::Chain;
use field_bounds::{AfterNames, after_names, copy_field};
use fields::{Field, FieldRead, next_field};
use files::file;
use spec::{Kind, Refusal};
use stores::{four_bytes, put_byte, put_bytes};
use terminal::resolve;

const RECORD_SIZE: usize = 12;

// No accepted chain has more bytes of records, nor a longer Flat (specs/Listing of `spec`).
const MOST_RECORD_BYTES: usize = 65520;

const MOST_FLAT_BYTES: usize = 16385;

// What is written for a winning field: its record, or its text and a colon. No closure: the pass promises `written form` of specs/Answers,
// so each function that passes a closure on would say in its contract which of the two forms the closure writes.
#[derive(Clone, Copy)]
pub enum Form {
    Records,
    Texts,
}

// Where a field comes from: the place of its description in the chain, and the number of its file, both from 0.
#[derive(Clone, Copy)]
pub struct Origin {
    pub place: u8,
    pub file: u8,
}

// What a winning field tells: its name, the number of its kind, which the table and a record have as a number, and its value.
#[derive(Clone, Copy)]
pub struct Won {
    pub a: u8,
    pub b: u8,
    pub kind: u8,
    pub value: u64,
}

// ---- a record

// "Two name bytes; kind; place of the description in the chain from 0; a 32-bit value, high byte first"; "the file number from 0 and three
// zeros at the end".
fn put_record(out: &mut [u8], at: usize, won: Won, from: Origin)
    ensures { out.new ≡ sets out.old at (record_bytes won.a won.b won.kind from won.value) }
{
    let [a, b, c, d] = four_bytes(won.value);
    let record = [
        won.a, won.b, won.kind, from.place, a, b, c, d, from.file, 0, 0, 0,
    ];
    put_bytes(out, at, &record);
}

// ---- the pass over the fields

// Marks a capability as met, and tells whether it wins.
fn take_capability(seen: &mut [u8; NAMES], a: u8, b: u8, kind: u8, value: u64) -> Option<Won>
    ensures { (seen.new ≡ marked seen.old a b kind) × (result ≡ won_if (is_first seen.old a b kind) a b kind value) }
{
    if meet(seen, a, b, kind) {
        return Some(Won { a, b, kind, value });
    }
    None
}

// Marks a field as met, by what it is read as, and tells whether it wins.
fn take_field(read: FieldRead, seen: &mut [u8; NAMES]) -> Option<Won>
    ensures { Took read seen.old seen.new result }
{
    match read {
        FieldRead::Cancel(a, b) => {
            meet(seen, a, b, CANCEL);
            None
        }
        FieldRead::Flag(a, b) => take_capability(seen, a, b, Kind::FLAG, 1),
        FieldRead::Number(a, b, v) => take_capability(seen, a, b, Kind::NUMBER, v as u64),
        FieldRead::String(a, b, _, n) => take_capability(seen, a, b, Kind::STRING, n as u64),
        _ => None,
    }
}

// Writes what belongs to the field at a place, if it wins: its record, or its text and a colon. Answers the place behind it. The table, the
// buffer and the place stay three arguments, here and below: both are lent, and `Passes` tells of each before and after.
fn write_field(
    s: &[u8],
    at: usize,
    read: FieldRead,
    from: Origin,
    form: Form,
    seen: &mut [u8; NAMES],
    out: &mut [u8],
    to: usize,
) -> usize
    requires { (length s.now ≤ 1048576) × Reads s.now at read × (to ≤ farthest) }
    ensures { Passes form (one_field from (field_at s.now at)) seen.old out.old to
        seen.new out.new result }
{
    let Some(won) = take_field(read, seen) else {
        return to;
    };
    match form {
        Form::Records => {
            put_record(out, to, won, from);
            to + RECORD_SIZE
        }
        Form::Texts => {
            let n = copy_field(s, at, out, to);
            put_byte(out, to + n, b':');
            to + n + 1
        }
    }
}

// The same for all fields of the part of a file that starts after a line's names.
fn write_fields(
    s: &[u8],
    from: Origin,
    form: Form,
    seen: &mut [u8; NAMES],
    out: &mut [u8],
    to: usize,
) -> usize
    requires { (length s.now ≤ 1048576) × SomeMarks seen.old × (to + most_for_line ≤ farthest) }
    ensures { Passes form (placed from.place from.file (split (line_at s.now 0))) seen.old out.old to
        seen.new out.new result
        × (result ≤ to + most_for_line) }
{
    let mut end = to;
    let mut at = 0;
    loop {
        let Some(Field { read, next, .. }) = next_field(s, at) else {
            return end;
        };
        end = write_field(s, at, read, from, form, seen, out, end);
        at = next;
    }
}

// The same for all fields of the line at a place of a file.
fn write_line(
    s: &[u8],
    at: usize,
    from: Origin,
    form: Form,
    seen: &mut [u8; NAMES],
    out: &mut [u8],
    to: usize,
) -> usize
    requires { (length s.now ≤ 1048576) × SomeMarks seen.old × (to + most_for_line ≤ farthest) }
    ensures { Passes form (placed from.place from.file (fields_of (line_at s.now at))) seen.old out.old to
        seen.new out.new result
        × (result ≤ to + most_for_line) }
{
    let Some(AfterNames { fields, .. }) = after_names(s, at) else {
        return to;
    };
    write_fields(&s[fields..], from, form, seen, out, to)
}

// The same for all fields of a chain, with an empty table: each winning field once, in order.
fn write_winning(
    db: &[u8],
    ends: &[usize],
    c: Chain,
    form: Form,
    out: &mut [u8],
    to: usize,
) -> usize
    requires { (length db.now ≤ 1048576) × (c.count ≤ 32) × (to ≤ most_for_line) }
    ensures { WroteWinning form (joined_fields (contents (files db.now ends.now)) 0 (lines_of c)) out.old to
        out.new result }
{
    let mut seen = [0u8; NAMES];
    let mut end = to;
    for (i, p) in c.lines[..c.count].iter().enumerate() {
        let from = Origin {
            place: i as u8,
            file: p.file,
        };
        end = write_line(
            file(db, ends, p.file),
            p.at,
            from,
            form,
            &mut seen,
            out,
            end,
        );
    }
    end
}

// ---- List and Flat: measured where a chain can need more than the lent buffer has, then written

// "The first line's names, a colon, then each winning field as written (joined) with a colon, then a newline."
fn put_flat(db: &[u8], ends: &[usize], c: Chain, out: &mut [u8]) -> usize
    requires { (length db.now ≤ 1048576) × (0 < c.count) × (c.count ≤ 32) × BoundedChain (contents (files db.now ends.now)) c }
    ensures { (result ≡ length (flat_of (contents (files db.now ends.now)) c))
        × (out.new ≡ sets out.old 0 (flat_of (contents (files db.now ends.now)) c)) }
{
    let first = c.lines[0];
    let names = copy_field(file(db, ends, first.file), first.at, out, 0);
    put_byte(out, names, b':');
    let end = write_winning(db, ends, c, Form::Texts, out, names + 1);
    put_byte(out, end, b'\n');
    end + 1
}

// All records of a chain, or its Flat. Answers the bytes written.
fn put_chain(db: &[u8], ends: &[usize], c: Chain, form: Form, out: &mut [u8]) -> usize
    requires { (length db.now ≤ 1048576) × (0 < c.count) × (c.count ≤ 32) × BoundedChain (contents (files db.now ends.now)) c }
    ensures { (result ≡ length (whole_of form (contents (files db.now ends.now)) c))
        × (out.new ≡ sets out.old 0 (whole_of form (contents (files db.now ends.now)) c)) }
{
    match form {
        Form::Records => write_winning(db, ends, c, Form::Records, out, 0),
        Form::Texts => put_flat(db, ends, c, out),
    }
}

// What any chain can need.
fn most_bytes(form: Form) -> usize
    ensures { ServesAll form result }
{
    match form {
        Form::Records => MOST_RECORD_BYTES,
        Form::Texts => MOST_FLAT_BYTES,
    }
}

// Whether what is written of a chain has room.
fn fits(db: &[u8], ends: &[usize], c: Chain, form: Form, room: usize) -> bool
    requires { (length db.now ≤ 1048576) × (0 < c.count) × (c.count ≤ 32) × BoundedChain (contents (files db.now ends.now)) c }
    ensures { result ≡ leb (length (whole_of form (contents (files db.now ends.now)) c)) room }
{
    if room >= most_bytes(form) {
        return true;
    }
    let mut buffer = [0u8; 1];
    put_chain(db, ends, c, form, &mut buffer) <= room
}

fn write_chain(
    db: &[u8],
    ends: &[usize],
    c: Chain,
    form: Form,
    out: &mut [u8],
) -> Result<usize, Refusal>
    requires { (length db.now ≤ 1048576) × (0 < c.count) × (c.count ≤ 32) × BoundedChain (contents (files db.now ends.now)) c }
    ensures { Put (whole_of form (contents (files db.now ends.now)) c)
        (length (whole_of form (contents (files db.now ends.now)) c))
        out.old result out.new }
{
    if !fits(db, ends, c, form, out.len()) {
        return Err(Refusal::NoRoom);
    }
    Ok(put_chain(db, ends, c, form, out))
}

pub fn list(db: &[u8], ends: &[usize], name: &[u8], out: &mut [u8]) -> Result<usize, Refusal>
    ensures { (result ≡ (list_outcome (files db.now ends.now) name.now out.old).answer)
        × (out.new ≡ (list_outcome (files db.now ends.now) name.now out.old).buffer)
        × (written_report result ≡ list_report (files db.now ends.now) name.now out.old) }
{
    let chain = resolve(db, ends, name)?;
    let n = write_chain(db, ends, chain, Form::Records, out)?;
    Ok(n / RECORD_SIZE)
}

pub fn flat(db: &[u8], ends: &[usize], name: &[u8], out: &mut [u8]) -> Result<usize, Refusal>
    ensures { (result ≡ (flat_outcome (files db.now ends.now) name.now out.old).answer)
        × (out.new ≡ (flat_outcome (files db.now ends.now) name.now out.old).buffer)
        × (written_report result ≡ flat_report (files db.now ends.now) name.now out.old) }
{
    let chain = resolve(db, ends, name)?;
    write_chain(db, ends, chain, Form::Texts, out)
}
