// Mends a termcap database as sites have edited it: `tcmend FILE` writes the mended one to standard output and its notes to standard
// error; `tcmend FILE NEW` writes it to the file NEW, which may be FILE, and its notes to standard output. NEW is written under a
// temporary name and then renamed, so that a fault leaves the old file as it was.
#![tactic(auto)]

ghost use Rattle.std.specs.Prelude.{◌+◌, ◌*◌, ◌≤◌, ◌<◌, ◌≡◌, length};
ghost use Rattle.spec.specs.Lines.{line_at, text_at, is_ignored};
ghost use Rattle.spec.specs.Choice.{pick};
ghost use Rattle.spec.specs.Repair.{lines_of, descriptions};
ghost use Rattle.removal_notes.specs.Notes.{Put, Stands, note, position_of, shown};
ghost use Rattle.tcmend.specs.Reasons.{reason_numbered, reason_text};

use lines::{is_ignored, next_line};
use mended_fields::RECORD_SIZE;
use program_io::{Messages, argument, has_argument, name, put_decimal, read_path};
use removal_notes::{Spot, find_spot, own_position, put_note};
use repair::repair;
use spec::{MOST_BYTES, Refusal};
use std::env::Env;
use std::fs;
use std::fs::{OpenFile, OpenOptions};
use std::io::{Error, Result, Write};
use std::rt::Files;
use stores::put_bytes;

// A note has a path of 4,096 bytes at most, two numbers, a reason and 60 bytes shown.
const NOTE_ROOM: usize = 8192;

// A path and `.tcmend`.
const TEMPORARY_ROOM: usize = 4103;

// Room for the largest database and one byte more, or for 65,536 records.
fn megabyte() -> [u8; 1048577]
    ensures { length result ≡ 1048577 }
{
    [0; 1048577]
}

// ---- what travels together

// A file's name, as an argument gave it.
#[derive(Clone, Copy)]
struct Path<'a> {
    name: &'a [u8],
    ghost short: { length name.now ≤ 4096 },
}

// A database that is mended, and the file that it came from.
#[derive(Clone, Copy)]
struct Database<'a> {
    path: Path<'a>,
    bytes: &'a [u8],
    ghost bounded: { length bytes.now ≤ 1048576 },
}

// The mended text, and a record for each thing that was removed.
#[derive(Clone, Copy)]
struct Mended<'a> {
    text: &'a [u8],
    records: &'a [u8],
    ghost text_bounded: { length text.now ≤ 1048577 },
    ghost records_bounded: { length records.now ≤ 1048577 },
}

// ---- the notes

// Why a thing was removed.
#[derive(Clone, Copy, PartialEq, Eq)]
enum Reason {
    NoColon,
    Malformed,
    AfterLink,
    UnknownName,
    Ring,
}

// As a record has it, in four bytes.
impl From<u32> for Reason {
    ghost from_gives = { λ n reason. reason ≡ reason_numbered n };

    fn from(n: u32) -> Reason {
        match n {
            1 => Reason::NoColon,
            2 => Reason::Malformed,
            3 => Reason::AfterLink,
            4 => Reason::UnknownName,
            _ => Reason::Ring,
        }
    }
}

impl Reason {
    fn text(self) -> &'static [u8]
        ensures { (result.now ≡ reason_text self) × (length result.now ≤ 100) }
    {
        match self {
            Reason::NoColon => b"line without a colon dropped",
            Reason::Malformed => b"malformed field removed",
            Reason::AfterLink => b"field after a link removed",
            Reason::UnknownName => b"link to an unknown name removed",
            Reason::Ring => b"link that comes back to its own line removed",
        }
    }
}

// A record of a removal: its logical line and its place there, the reason, and its joined bytes.
#[derive(Clone, Copy)]
struct Removal {
    line: usize,
    place: usize,
    reason: Reason,
    count: usize,
}

// A 32-bit number, high byte first.
fn number_at(entry: &[u8], at: usize) -> u32
    requires { at + 3 < length entry.now }
{
    u32::from_be_bytes([entry[at], entry[at + 1], entry[at + 2], entry[at + 3]])
}

fn removal_in(entry: &[u8]) -> Removal
    requires { 15 < length entry.now }
{
    Removal {
        line: number_at(entry, 0) as usize,
        place: number_at(entry, 4) as usize,
        reason: Reason::from(number_at(entry, 8)),
        count: number_at(entry, 12) as usize,
    }
}

fn put_removal(db: Database, s: Spot, r: Removal, out: &mut [u8]) -> usize
    requires { Stands db.bytes.now s }
    ensures { Put (note db.entry.path.name.now (position_of db.entry.bytes.now s.line s.place) (reason_text r.reason)
        (shown r.count (text_at db.entry.bytes.now s.at))) out.old 0 out.new result
        × (result ≤ 4500) }
{
    let position = own_position(db.bytes, s);
    put_note(
        db.path.name,
        position,
        r.reason.text(),
        db.bytes,
        s.at,
        r.count,
        out,
    )
}

fn write_note<P: Print>(to: &P, db: Database, s: Spot, r: Removal) -> Result<()>
    requires { Stands db.bytes.now s }
{
    let mut out = [0u8; NOTE_ROOM];
    let n = put_removal(db, s, r, &mut out);
    to.write_all(&out[..n])
}

// What the notes told of: fields that were removed, descriptions that lost some, and lines that were dropped.
#[derive(Clone, Copy)]
struct Told {
    fields: usize,
    changed: usize,
    dropped: usize,
    // The logical line of the last field.
    line: Option<usize>,
}

impl Told {
    fn nothing() -> Told
        ensures { (result.fields ≡ 0) × (result.changed ≡ 0) × (result.dropped ≡ 0) }
    {
        Told {
            fields: 0,
            changed: 0,
            dropped: 0,
            line: None,
        }
    }

    fn with(self, r: Removal) -> Told
        requires { (self.fields ≤ 1048576) × (self.changed ≤ 1048576) × (self.dropped ≤ 1048576) }
        ensures { (result.fields ≤ self.fields + 1) × (result.changed ≤ self.changed + 1) × (result.dropped ≤ self.dropped + 1) }
    {
        let mut told = self;
        if r.reason == Reason::NoColon {
            told.dropped += 1;
            return told;
        }
        told.fields += 1;
        if self.line != Some(r.line) {
            told.changed += 1;
            told.line = Some(r.line);
        }
        told
    }
}

// The notes of all records, and the summary.
fn tell<P: Print>(to: &P, db: Database, records: &[u8], left: usize) -> Result<()>
    requires { length records.now ≤ 1048577 }
{
    let mut spot = Spot::first(db.bytes);
    let mut told = Told::nothing();
    for entry in records.chunks_exact(RECORD_SIZE) {
        let r = removal_in(entry);
        spot = find_spot(db.bytes, spot, r.line, r.place);
        write_note(to, db, spot, r)?;
        told = told.with(r);
    }
    write_summary(to, db.path, told, left)
}

// ---- the summary

// A count and what is counted, in the singular or the plural.
fn put_count(out: &mut [u8], at: usize, n: usize, one: &[u8], many: &[u8]) -> usize
    requires { (at ≤ 100000) × (length one.now ≤ 100) × (length many.now ≤ 100) }
    ensures { result ≤ at + 120 }
{
    let end = put_decimal(out, at, n as u64);
    let counted = if n == 1 { one } else { many };
    put_bytes(out, end, counted);
    end + counted.len()
}

fn put_summary(path: Path, told: Told, left: usize, out: &mut [u8]) -> usize
    ensures { result ≤ 5000 }
{
    put_bytes(out, 0, path.name);
    put_bytes(out, path.name.len(), b": ");
    let at = path.name.len() + 2;
    let fields = put_count(
        out,
        at,
        told.fields,
        b" field removed from ",
        b" fields removed from ",
    );
    let changed = put_count(
        out,
        fields,
        told.changed,
        b" description, ",
        b" descriptions, ",
    );
    let dropped = put_count(
        out,
        changed,
        told.dropped,
        b" line dropped; ",
        b" lines dropped; ",
    );
    put_count(
        out,
        dropped,
        left,
        b" description left\n",
        b" descriptions left\n",
    )
}

fn write_summary<P: Print>(to: &P, path: Path, told: Told, left: usize) -> Result<()> {
    let mut out = [0u8; NOTE_ROOM];
    let n = put_summary(path, told, left, &mut out);
    to.write_all(&out[..n])
}

// One for a line that isn't ignored.
fn count_line(db: &[u8], at: usize) -> usize
    ensures { (result ≡ pick (is_ignored (line_at db.now at)) 0 1) × (result ≤ 1) }
{
    if is_ignored(db, at) { 0 } else { 1 }
}

fn count_descriptions(db: &[u8]) -> usize
    requires { length db.now ≤ 1048577 }
    ensures { result ≡ descriptions (lines_of db.now) }
{
    let mut at = 0;
    let mut n = 0;
    loop {
        n += count_line(db, at);
        match next_line(db, at) {
            Some(next) => at = next,
            None => return n,
        }
    }
}

// ---- the new file

// What failed, and the reason that the system gives.
#[derive(Clone, Copy)]
struct Failure<'a> {
    what: &'a [u8],
    reason: Error,
}

// Writes and closes the file; all of it is on the disk then.
fn store<F: Write + OpenFile + Drop>(mut file: F, text: &[u8]) -> Result<()> {
    file.write_all(text)?;
    file.sync_all()
}

// A file that was not there before.
fn create<R: Files>(rt: &R, path: &[u8]) -> Result<R::File> {
    OpenOptions::new()
        .write(true)
        .create_new(true)
        .open(rt, name(path)?)
}

fn rename<R: Files>(rt: &R, from: &[u8], to: &[u8]) -> Result<()> {
    fs::rename(rt, name(from)?, name(to)?)
}

fn remove<R: Files>(rt: &R, path: &[u8]) -> Result<()> {
    fs::remove_file(rt, name(path)?)
}

// Stores the text in the new file of the temporary name.
fn store_in<'a, R: Files>(
    rt: &R,
    file: R::File,
    from: &'a [u8],
    path: &'a [u8],
    text: &[u8],
) -> std::result::Result<(), Failure<'a>> {
    store(file, text).map_err(|reason| Failure { what: from, reason })?;
    rename(rt, from, path).map_err(|reason| Failure { what: path, reason })
}

// Whether the text is in the file of that name. What failed is said before the temporary file is removed; with a `Result` the caller would
// say it after that.
fn store_as<R: Files, E: Print>(
    rt: &R,
    messages: &Messages<E>,
    from: &[u8],
    path: &[u8],
    text: &[u8],
) -> bool {
    let file = match create(rt, from) {
        Ok(file) => file,
        Err(reason) => {
            messages.fail(from, reason);
            return false;
        }
    };
    let Err(failure) = store_in(rt, file, from, path, text) else {
        return true;
    };
    messages.fail(failure.what, failure.reason);
    let _ = remove(rt, from);
    false
}

// Under a temporary name first, the path and `.tcmend`.
fn replace<R: Files, E: Print>(rt: &R, messages: &Messages<E>, path: Path, text: &[u8]) -> bool {
    let mut from = [0u8; TEMPORARY_ROOM];
    put_bytes(&mut from, 0, path.name);
    put_bytes(&mut from, path.name.len(), b".tcmend");
    let n = path.name.len() + 7;
    store_as(rt, messages, &from[..n], path.name, text)
}

// ---- the program

fn say_nothing_to_mend<P: Print>(to: &P, path: Path) -> Result<()> {
    to.write_all(path.name)?;
    to.write_all(b": nothing to mend\n")
}

// The notes of all records, or that there are none.
fn put_notes<P: Print>(to: &P, db: Database, mended: Mended) -> Result<()> {
    if mended.records.is_empty() {
        return say_nothing_to_mend(to, db.path);
    }
    tell(to, db, mended.records, count_descriptions(mended.text))
}

// The notes on standard output or standard error.
fn write_notes<P: Print, E: Print>(to: &P, messages: &Messages<E>, db: Database, mended: Mended) {
    if let Err(reason) = put_notes(to, db, mended) {
        messages.fail(b"the notes", reason);
    }
}

// A database with nothing to mend is not written to a file.
fn deliver<R: Files + Print, E: Print>(
    rt: &R,
    messages: &Messages<E>,
    new: Option<Path>,
    db: Database,
    mended: Mended,
) {
    match new {
        Some(path) => {
            if mended.records.is_empty() || replace(rt, messages, path, mended.text) {
                write_notes(rt, messages, db, mended);
            }
        }
        None => match rt.write_all(mended.text) {
            Ok(()) => write_notes(messages.err, messages, db, mended),
            Err(reason) => messages.fail(b"standard output", reason),
        },
    }
}

fn refuse<E: Print>(messages: &Messages<E>, path: Path, r: Refusal) {
    let what = match r {
        Refusal::TooManyLines => b": more than 4096 descriptions\n".as_slice(),
        _ => b": more than 65536 things to remove\n".as_slice(),
    };
    messages.report(path.name, what);
}

fn mend<R: Files + Print, E: Print>(
    rt: &R,
    messages: &Messages<E>,
    new: Option<Path>,
    db: Database,
) {
    let mut text = megabyte();
    let mut records = megabyte();
    match repair(db.bytes, &mut text, &mut records) {
        Ok(amounts) => {
            let size = amounts.records * RECORD_SIZE;
            let mended = Mended {
                text: &text[..amounts.bytes],
                records: &records[..size],
            };
            deliver(rt, messages, new, db, mended);
        }
        Err(r) => refuse(messages, db.path, r),
    }
}

fn mend_read<R: Files + Print, E: Print>(
    rt: &R,
    messages: &Messages<E>,
    path: Path,
    new: Option<Path>,
    bytes: &[u8],
) {
    if bytes.len() > MOST_BYTES {
        messages.report(path.name, b": more than 1048576 bytes\n");
        return;
    }
    mend(rt, messages, new, Database { path, bytes });
}

fn mend_file<R: Files + Print, E: Print>(
    rt: &R,
    messages: &Messages<E>,
    path: Path,
    new: Option<Path>,
) {
    let mut db = megabyte();
    match read_path(rt, path.name, &mut db) {
        Ok(n) => mend_read(rt, messages, path, new, &db[..n]),
        Err(reason) => messages.fail(path.name, reason),
    }
}

fn print_usage<O: Print, E: Print>(out: &O, messages: &Messages<E>) {
    messages.print(
        out,
        b"usage: tcmend FILE        writes the mended database to standard output
       tcmend FILE NEW    writes it to the file NEW, which may be FILE
Removes from a termcap database what makes names unusable: lines without a
colon, malformed fields, fields after a link, links to unknown names, and links
that come back to their own line. A line that loses nothing keeps every byte.
Each removal is noted as FILE:LINE:COLUMN: reason: text, and a summary follows:
on standard error, or with NEW on standard output. With NEW and nothing to mend
no file is written. NEW is written as NEW.tcmend and then renamed; after a fault
the old file is as it was. FILE has at most 1048576 bytes and 4096 descriptions.
The exit status says nothing: it is 0 in every case.
",
    );
}

fn mend_to<R: Env + Files + Print, E: Print>(rt: &R, messages: &Messages<E>, path: Path) {
    let mut new = io::buffer();
    match argument(rt, 2, &mut new) {
        Ok(n) => mend_file(rt, messages, path, Some(Path { name: &new[..n] })),
        Err(reason) => messages.fail(&new, reason),
    }
}

fn mend_asked<R: Env + Files + Print, E: Print>(rt: &R, messages: &Messages<E>, path: Path) {
    if has_argument(rt, 2) {
        mend_to(rt, messages, path);
        return;
    }
    if path.name == b"--help".as_slice() {
        print_usage(rt, messages);
        return;
    }
    mend_file(rt, messages, path, None);
}

fn run<R: Env + Files + Print, E: Print>(rt: &R, messages: &Messages<E>) {
    if !has_argument(rt, 1) || has_argument(rt, 3) {
        let _ = messages.err.write_all(
            b"tcmend: a file is wanted, and perhaps a new one; tcmend --help says more\n",
        );
        return;
    }
    let mut path = io::buffer();
    match argument(rt, 1, &mut path) {
        Ok(n) => mend_asked(rt, messages, Path { name: &path[..n] }),
        Err(reason) => messages.fail(&path, reason),
    }
}

fn main(rt: HostRuntime) {
    let messages = Messages {
        program: b"tcmend",
        err: &rt.stderr(),
    };
    run(&rt, &messages);
}
