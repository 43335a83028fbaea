// Asks the cases of standard input, one to a line, and writes for each its line's number and the answer in decimal.
//
// These lines build the database that the cases after them are asked on: `=` empties it, `>` adds the rest of the line and a newline, `+`
// the rest of the line alone, `*` and a byte, a bar and a count adds that byte as often, as far as the space goes.
//
// A case is `part` (the ends of what Show shows) or `show` and a name; `flag` or `number`, a name and an id; `open`, a name and an id (one
// opened reader is asked Flag, Number and Show); `String`, a name, an id and a room; `List` or `Flat`, a name and a room; with a bar after
// each but the last. In a name and an id a backslash and two hexadecimal digits stand for a byte. The buffer has as many bytes as the room
// says, at most 64, holds 255 in each before the call, and is written in decimal after the answer. Any other line is a comment.
#![tactic(auto)]

ghost use Rattle.std.specs.Prelude.{◌≤◌, length};
ghost use Rattle.io.specs.Counts.{IsPrefixLen};

use case_lines::{
    number, room, show_bytes, show_part, show_refusal, show_value, show_written, text,
};

// ---- the database

fn add_bytes(bytes: &[u8], space: &mut [u8], used: usize) -> usize
    requires { used ≤ length space.old }
    ensures { result ≤ length space.new }
{
    let more = bytes.len().min(space.len() - used);
    space[used..used + more].copy_from_slice(&bytes[..more]);
    used + more
}

fn add_line(bytes: &[u8], space: &mut [u8], used: usize) -> usize
    requires { used ≤ length space.old }
    ensures { result ≤ length space.new }
{
    let n = add_bytes(bytes, space, used);
    add_bytes(b"\n", space, n)
}

fn add_copies(b: u8, count: usize, space: &mut [u8], used: usize) -> usize
    requires { used ≤ length space.old }
    ensures { result ≤ length space.new }
{
    let more = count.min(space.len() - used);
    space[used..used + more].fill(b);
    used + more
}

// ---- the answers

fn show_shown(bytes: &[u8], refusal: u8) {
    if refusal == 0 {
        io::write_all(1, b" ok ");
        io::print_decimal(1, bytes.len() as u64);
    } else {
        show_refusal(refusal);
    }
    io::write_all(1, b":");
    show_bytes(bytes);
}

// ---- the cases

// What a case asks: a name and an id, on a database.
#[derive(Clone, Copy)]
struct Case<'a> {
    operation: u8,
    db: &'a [u8],
    ends: &'a [usize],
    name: &'a [u8],
    id: &'a [u8],
}

impl<'a> Case<'a> {
    fn part(&self) {
        show_part(show::show_part(self.db, self.ends, self.name));
        io::write_all(1, b"\n");
    }

    fn show(&self) {
        let mut refusal = 255;
        let bytes = show::show(self.db, self.ends, self.name, &mut refusal);
        show_shown(bytes, refusal);
        io::write_all(1, b"\n");
    }

    fn flag(&self) {
        show_value(questions::flag(self.db, self.ends, self.name, self.id));
        io::write_all(1, b"\n");
    }

    fn number(&self) {
        show_value(questions::number(self.db, self.ends, self.name, self.id));
        io::write_all(1, b"\n");
    }

    // One opened reader serves all three questions; its answers to Flag and Number are written.
    fn ask_opened(&self, refusal: &mut u8) -> &'a [u8] {
        let opened = reader::open(self.db, self.ends);
        let flag = reader::flag(opened, self.name, self.id);
        let number = reader::number(opened, self.name, self.id);
        show_value(flag);
        show_value(number);
        reader::show(opened, self.name, refusal)
    }

    fn opened(&self) {
        let mut refusal = 255;
        let bytes = self.ask_opened(&mut refusal);
        show_shown(bytes, refusal);
        io::write_all(1, b"\n");
    }

    fn string(&self, out: &mut [u8]) {
        show_value(questions::string(self.db, self.ends, self.name, self.id, out));
        io::write_all(1, b":");
        show_bytes(out);
        io::write_all(1, b"\n");
    }

    fn list(&self, out: &mut [u8]) {
        let answer = listing::list(self.db, self.ends, self.name, out);
        show_written(answer, out);
    }

    fn flat(&self, out: &mut [u8]) {
        let answer = listing::flat(self.db, self.ends, self.name, out);
        show_written(answer, out);
    }

    fn ask(&self, out: &mut [u8]) {
        match self.operation {
            b'p' => self.part(),
            b's' => self.show(),
            b'f' => self.flag(),
            b'n' => self.number(),
            b'o' => self.opened(),
            b'S' => self.string(out),
            b'L' => self.list(out),
            _ => self.flat(out),
        }
    }
}

fn is_case(b: u8) -> bool {
    matches!(b, b'p' | b's' | b'f' | b'n' | b'o' | b'S' | b'L' | b'F')
}

fn case_room(operation: u8, line: &[u8], buffer: &[u8]) -> usize
    ensures { IsPrefixLen result buffer.now }
{
    let field = if operation == b'S' { 3 } else { 2 };
    room(line, field, buffer)
}

fn run_case(operation: u8, line: &[u8], n: u64, db: &[u8]) {
    if !is_case(operation) {
        return;
    }
    let mut name = [0u8; 80];
    let mut id = [0u8; 8];
    let mut out = [255u8; 64];
    let k = text(line, 1, &mut name);
    let m = text(line, 2, &mut id);
    let most = case_room(operation, line, &out);
    io::print_decimal(1, n);
    let case = Case {
        operation,
        db,
        ends: &[db.len()],
        name: &name[..k],
        id: &id[..m],
    };
    case.ask(&mut out[..most]);
}

// Answers how much of the space the database takes then.
fn run_line(line: &[u8], n: u64, space: &mut [u8], used: usize) -> usize
    requires { used ≤ length space.old }
    ensures { result ≤ length space.new }
{
    match line {
        [b'=', ..] => 0,
        [b'>', bytes @ ..] => add_line(bytes, space, used),
        [b'+', bytes @ ..] => add_bytes(bytes, space, used),
        [b'*', b, ..] => add_copies(*b, number(line, 1) as usize, space, used),
        [operation, ..] => {
            run_case(*operation, line, n, &space[..used]);
            used
        }
        [] => used,
    }
}

fn run(cases: &[u8], space: &mut [u8]) {
    let mut used = 0;
    for (i, line) in cases.split(|b| *b == b'\n').enumerate() {
        used = run_line(line, i as u64 + 1, space, used);
    }
}

// The space is lent with its length in its type: to count up so many zeros is too deep for the checker.
fn run_in(cases: &[u8], space: &mut [u8; 1048577]) {
    run(cases, space);
}

fn main() {
    let mut cases = [0u8; 16384];
    let mut space = [0u8; 1048577];
    let n = io::read_full(0, &mut cases);
    run_in(&cases[..n], &mut space);
}
