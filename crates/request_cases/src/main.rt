// Asks the cases of document 02's requests from standard input, one to a line, and writes for each its line's number, the answer, and the
// buffers afterwards in decimal.
//
// A line is `repair`, database, room and room for the records; `batch`, database, name, questions and room; or `part` (what Show shows) or
// `search`, database, ends and name; `flag` with an id after these; `list` with a room after them; with a bar after each but the last. Ends are bytes,
// one for each end; a batch is about one file; or `cut`, file, the places of its cuts, name, room for the finder's text and room, or `early`
// for the same without an end declared. Any other line is a comment. In a text
// a backslash and two hexadecimal digits stand for a byte. A buffer has as many bytes as its room says, at most 64, and holds 255 in each
// before the call.
#![tactic(auto)]

ghost use Rattle.std.specs.Prelude.{◌≤◌, max};
ghost use Rattle.io.specs.Counts.{IsPrefixLen};

use batch::batch;
use case_lines::{room, show_bytes, show_part, show_refusal, show_value, show_written, text};
use repair::repair;
use spec::finder::Finder;
use spec::{Amounts, Refusal, Tally};

fn case_batch(line: &[u8], out: &mut [u8]) {
    let mut db = [0u8; 256];
    let mut name = [0u8; 80];
    let mut questions = [0u8; 80];
    let n = text(line, 1, &mut db);
    let m = text(line, 2, &mut name);
    let q = text(line, 3, &mut questions);
    let ends = [n];
    show_written(
        batch(&db[..n], &ends, &name[..m], &questions[..q], out),
        out,
    );
}

fn show_repaired(answer: Result<Amounts, Refusal>) {
    match answer {
        Ok(Amounts { bytes, records }) => {
            io::write_all(1, b" ok ");
            io::print_decimal(1, bytes as u64);
            io::write_all(1, b" ");
            io::print_decimal(1, records as u64);
        }
        Err(r) => show_refusal(r.number()),
    }
}

fn case_repair(line: &[u8], out: &mut [u8], records: &mut [u8]) {
    let mut db = [0u8; 256];
    let n = text(line, 1, &mut db);
    show_repaired(repair(&db[..n], out, records));
    io::write_all(1, b":");
    show_bytes(out);
    io::write_all(1, b":");
    show_bytes(records);
    io::write_all(1, b"\n");
}

// ---- Asks 5 and 6: several files, and the search that counts

fn show_searched(answer: Result<Tally, Refusal>) {
    match answer {
        Ok(
            Tally {
                found: true,
                compared: n,
            },
        ) => {
            io::write_all(1, b" found ");
            io::print_decimal(1, n as u64);
        }
        Ok(
            Tally {
                found: false,
                compared: n,
            },
        ) => {
            io::write_all(1, b" missing ");
            io::print_decimal(1, n as u64);
        }
        Err(r) => show_refusal(r.number()),
    }
}

// As many ends as there is space for.
fn read_ends(bytes: &[u8], ends: &mut [usize]) -> usize
    ensures { IsPrefixLen result ends.new }
{
    for (end, b) in ends.iter_mut().zip(bytes) {
        *end = *b as usize;
    }
    bytes.len().min(ends.len())
}

fn ask_files(operation: u8, line: &[u8], db: &[u8], ends: &[usize], out: &mut [u8]) {
    let mut name = [0u8; 80];
    let mut id = [0u8; 8];
    let k = text(line, 3, &mut name);
    let m = text(line, 4, &mut id);
    match operation {
        b'p' => show_part(show::show_part(db, ends, &name[..k])),
        b's' => show_searched(name_count::search(db, ends, &name[..k])),
        b'f' => show_value(questions::flag(db, ends, &name[..k], &id[..m])),
        _ => {
            let answer = listing::list(db, ends, &name[..k], out);
            show_written(answer, out);
            return;
        }
    }
    io::write_all(1, b"\n");
}

fn case_files(operation: u8, line: &[u8], out: &mut [u8]) {
    let mut db = [0u8; 256];
    let mut bytes = [0u8; 16];
    let mut ends = [0usize; 16];
    let n = text(line, 1, &mut db);
    let k = text(line, 2, &mut bytes);
    let m = read_ends(&bytes[..k], &mut ends);
    ask_files(operation, line, &db[..n], &ends[..m], out);
}

// ---- Ask 8: a file in blocks

// The place of a cut; one that lies before the last, or past the end, is the last again.
fn next_cut(b: u8, at: usize, end: usize) -> usize
    ensures { (at ≤ result) × (result ≤ max at end) }
{
    let to = b as usize;
    if (at..=end).contains(&to) { to } else { at }
}

fn feed_blocks(finder: &mut Finder, file: &[u8], cuts: &[u8], collected: &mut [u8]) {
    let mut at = 0;
    for b in cuts {
        let to = next_cut(*b, at, file.len());
        let _ = finder::feed(finder, &file[at..to], collected);
        at = to;
    }
    let _ = finder::feed(finder, &file[at..], collected);
}

fn case_blocks(operation: u8, line: &[u8], collected: &mut [u8], out: &mut [u8]) {
    let mut file = [0u8; 256];
    let mut cuts = [0u8; 16];
    let mut name = [0u8; 80];
    let n = text(line, 1, &mut file);
    let k = text(line, 2, &mut cuts);
    let m = text(line, 3, &mut name);
    let (mut finder, opened) = finder::open(&name[..m]);
    if let Err(refusal) = opened {
        show_refusal(refusal.number());
        io::write_all(1, b"\n");
        return;
    }
    feed_blocks(&mut finder, &file[..n], &cuts[..k], collected);
    if operation != b'e' {
        let _ = finder::end(&mut finder, collected);
    }
    show_written(finder::answer(finder, collected, out), out);
}

fn run_line(line: &[u8], n: u64) {
    let mut out = [255u8; 64];
    let mut records = [255u8; 64];
    match line.first() {
        Some(operation @ (b'p' | b's' | b'f' | b'l')) => {
            let most = room(line, 4, &out);
            io::print_decimal(1, n);
            case_files(*operation, line, &mut out[..most]);
        }
        Some(operation @ (b'c' | b'e')) => {
            let most_text = room(line, 4, &records);
            let most = room(line, 5, &out);
            io::print_decimal(1, n);
            case_blocks(
                *operation,
                line,
                &mut records[..most_text],
                &mut out[..most],
            );
        }
        Some(b'b') => {
            let most = room(line, 4, &out);
            io::print_decimal(1, n);
            case_batch(line, &mut out[..most]);
        }
        Some(b'r') => {
            let most = room(line, 2, &out);
            let most_records = room(line, 3, &records);
            io::print_decimal(1, n);
            case_repair(line, &mut out[..most], &mut records[..most_records]);
        }
        _ => {}
    }
}

fn run(cases: &[u8]) {
    for (i, line) in cases.split(|b| *b == b'\n').enumerate() {
        run_line(line, i as u64 + 1);
    }
}

fn main() {
    let mut space = [0u8; 16384];
    let n = io::read_full(0, &mut space);
    run(&space[..n]);
}
