// Prints the listing of a terminal: `tclist FILE`, with the terminal's name on the first line of standard input. What goes wrong is
// reported on standard error, and then nothing is printed. A program has no exit status to tell it by.
#![tactic(auto)]

ghost use Rattle.std.specs.Prelude.{◌+◌, ◌*◌, ◌≤◌, ◌≡◌, length, Err};
ghost use Rattle.std.proofs.lemmas.List.Edits.{sets};
ghost use Rattle.io.specs.Counts.{IsPrefixLen};
ghost use Rattle.spec.specs.Files.{alone};
ghost use Rattle.spec.specs.Digits.{written};
ghost use Rattle.spec.specs.Listing.{list_outcome};
ghost use Rattle.tclist.specs.Output.{separator_of, decimals, answer_text, PutText};

use listing::list;
use program_io::{Messages, argument, has_argument, read_line, read_path};
use spec::Refusal;
use std::env::Env;
use std::io::Input;
use std::rt::Files;
use stores::put_byte;

// The most bytes of a file that is searched, and room to see that a file has more.
const MOST_BYTES: usize = 65536;

const FILE_ROOM: usize = 65537;

// One byte more than a good name has: a longer line is refused as its first bytes are.
const NAME_ROOM: usize = 65;

// 5,460 records can be live, so that the room never refuses a listing. A byte takes three digits and a separator at most.
const RECORD_BYTES: usize = 12;

const RECORDS_ROOM: usize = 65520;

const TEXT_ROOM: usize = 262084;

// ---- the text of an answer

// A byte in decimal, from a place on; the place after it.
fn put_decimal(out: &mut [u8], at: usize, b: u8) -> usize
    requires { at ≤ 1000000 }
    ensures { (result ≡ at + length (written 10 1 b)) × (out.new ≡ sets out.old at (written 10 1 b)) }
{
    program_io::put_decimal(out, at, b as u64)
}

// What stands after a byte of the records: a newline after the last one of a record.
fn separator(k: usize) -> u8
    ensures { result ≡ separator_of k }
{
    if k % RECORD_BYTES == 11 { b'\n' } else { b' ' }
}

fn put_records(records: &[u8], out: &mut [u8]) -> usize
    requires { length records.now ≤ 65520 }
    ensures put_text { PutText (decimals 0 records.now) result out.old out.new }
    ensures upper_bound { result ≤ 4 * length records.now }
{
    let mut n = 0;
    for (k, b) in records.iter().enumerate() {
        let end = put_decimal(out, n, *b);
        put_byte(out, end, separator(k));
        n = end + 1;
    }
    n
}

fn put_refusal(r: Refusal, out: &mut [u8]) -> usize
    ensures put_text { PutText (answer_text (Err r) out.old) result out.old out.new }
    ensures upper_bound { result ≤ 4 }
{
    let end = put_decimal(out, 0, r.number());
    put_byte(out, end, b'\n');
    end + 1
}

// The listing of a terminal in a single file.
fn list_alone(db: &[u8], name: &[u8], records: &mut [u8]) -> Result<usize, Refusal>
    ensures { (result ≡ (list_outcome (alone db.now) name.now records.old).answer)
        × (records.new ≡ (list_outcome (alone db.now) name.now records.old).buffer) }
{
    let ends = [db.len()];
    list(db, &ends, name, records)
}

// The listing's text at the start of a buffer, by way of the records.
fn put_listing(db: &[u8], name: &[u8], records: &mut [u8], out: &mut [u8]) -> usize
    requires { (length records.old ≤ 65520) × (262084 ≤ length out.old) }
    ensures put_text { PutText (answer_text (list_outcome (alone db.now) name.now records.old).answer
        (list_outcome (alone db.now) name.now records.old).buffer) result out.old out.new }
    ensures prefix_len { IsPrefixLen result out.new }
{
    match list_alone(db, name, records) {
        Ok(n) => put_records(&records[..RECORD_BYTES * n], out),
        Err(r) => put_refusal(r, out),
    }
}

// ---- the program

fn print_listing<O: Print, E: Print>(out: &O, messages: &Messages<E>, db: &[u8], name: &[u8]) {
    let mut records = [0u8; RECORDS_ROOM];
    let mut text = [0u8; TEXT_ROOM];
    let n = put_listing(db, name, &mut records, &mut text);
    messages.print(out, &text[..n]);
}

fn list_asked<R: Input + Print, E: Print>(rt: &R, messages: &Messages<E>, db: &[u8]) {
    let mut name = [0u8; NAME_ROOM];
    let mut input = rt.reader();
    match read_line(&mut input, &mut name) {
        Ok(n) => print_listing(rt, messages, db, &name[..n]),
        Err(reason) => messages.fail(b"standard input", reason),
    }
}

fn list_database<R: Input + Print, E: Print>(
    rt: &R,
    messages: &Messages<E>,
    path: &[u8],
    db: &[u8],
) {
    if db.len() > MOST_BYTES {
        messages.report(path, b": more than 65536 bytes\n");
        return;
    }
    list_asked(rt, messages, db);
}

fn list_file<R: Files + Input + Print, E: Print>(rt: &R, messages: &Messages<E>, path: &[u8]) {
    let mut db = [0u8; FILE_ROOM];
    match read_path(rt, path, &mut db) {
        Ok(n) => list_database(rt, messages, path, &db[..n]),
        Err(reason) => messages.fail(path, reason),
    }
}

fn print_usage<O: Print, E: Print>(out: &O, messages: &Messages<E>) {
    messages.print(
        out,
        b"usage: tclist FILE
Prints the listing of the terminal that the first line of standard input names.
FILE is a termcap database of at most 65536 bytes. Each record is printed on a
line of its own, its bytes in decimal; a refusal is printed as its number alone.
What goes wrong is reported on standard error, and then nothing is printed.
The exit status says nothing: it is 0 in every case.
",
    );
}

fn run<R: Files + Env + Input + Print, E: Print>(rt: &R, messages: &Messages<E>) {
    if !has_argument(rt, 1) || has_argument(rt, 2) {
        let _ = messages.err.write_all(
            b"tclist: one argument is wanted, the file; tclist --help says more\n",
        );
        return;
    }
    let mut path = io::buffer();
    match argument(rt, 1, &mut path) {
        Ok(n) => run_on(rt, messages, &path[..n]),
        Err(reason) => messages.fail(&path, reason),
    }
}

fn run_on<R: Files + Input + Print, E: Print>(rt: &R, messages: &Messages<E>, path: &[u8]) {
    if path == b"--help".as_slice() {
        print_usage(rt, messages);
        return;
    }
    list_file(rt, messages, path);
}

fn main(rt: HostRuntime) {
    let messages = Messages {
        program: b"tclist",
        err: &rt.stderr(),
    };
    run(&rt, &messages);
}
