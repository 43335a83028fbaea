// The notes of the program tcmend: where a removed thing stands in the file as an editor counts it, and what is shown of it.
#![tactic(auto)]

ghost use Rattle.std.specs.Prelude.{◌+◌, ◌*◌, ◌≤◌, ◌≡◌, length};
ghost use Rattle.spec.specs.Choice.{between};
ghost use Rattle.spec.specs.Lines.{text_at};
ghost use Rattle.removal_notes.specs.Notes.{behind, position_at, position_of, text_from, place_of, Stands};
ghost use Rattle.removal_notes.specs.Notes.{shown_byte, shown_bytes, shown, place_text, note, Put};

use lines::peek;
use program_io::put_decimal;
use stores::{put_byte, put_bytes};

// A line and a column of a file, from 1.
#[derive(Clone, Copy)]
pub struct Position {
    pub row: usize,
    pub column: usize,
}

// What a record names: its logical line and its place in that line once joined, both from 0; a place of the database whose joined text
// starts there, and the position of that place.
#[derive(Clone, Copy)]
pub struct Spot {
    pub line: usize,
    pub place: usize,
    pub at: usize,
    pub position: Position,
}

// How many bytes are shown of what was removed.
const MOST_SHOWN: usize = 60;

// ---- positions

fn next_position(p: Position, b: u8) -> Position
    requires { (p.row ≤ 1048577) × (p.column ≤ 1048577) }
    ensures { result ≡ behind p b }
{
    if b == b'\n' {
        return Position {
            row: p.row + 1,
            column: 1,
        };
    }
    Position {
        column: p.column + 1,
        ..p
    }
}

// The position of a place, from that of a place before it.
fn move_on(db: &[u8], from: usize, to: usize, p: Position) -> Position
    requires from_le_to { (from ≤ to) × (to ≤ length db.now) × (length db.now ≤ 1048576) }
    requires p_value { p ≡ position_at db.now from }
    ensures { result ≡ position_at db.now to }
{
    let mut here = p;
    for b in &db[from..to] {
        here = next_position(here, *b);
    }
    here
}

// ---- the byte that a record names

// So many lines further.
fn skip_lines(db: &[u8], at: usize, count: usize) -> usize
    requires { at ≤ length db.now }
    ensures { (text_at db.now result ≡ text_from count 0 (text_at db.now at)) × (at ≤ result) × (result ≤ length db.now) }
{
    let mut p = at;
    let mut left = count;
    // Not by `for`, which is no plainer: the count falls only where a line ends.
    while left > 0 {
        match peek(db, p) {
            Some((b, n)) => {
                p = n;
                if b == b'\n' {
                    left -= 1;
                    continue;
                }
            }
            None => return p,
        }
    }
    p
}

// So many bytes further, but not past the line's closing newline.
fn skip_bytes(db: &[u8], at: usize, count: usize) -> usize
    requires { at ≤ length db.now }
    ensures { (text_at db.now result ≡ text_from 0 count (text_at db.now at)) × (at ≤ result) × (result ≤ length db.now) }
{
    let mut p = at;
    for _ in 0..count {
        match peek(db, p) {
            Some((b, n)) => {
                if b == b'\n' {
                    return p;
                }
                p = n;
            }
            None => return p,
        }
    }
    p
}

// A spot so many lines further and then so many bytes, which is that of a line and a place.
fn advance(db: &[u8], from: Spot, lines: usize, bytes: usize, line: usize, place: usize) -> Spot
    requires db_len_bound { (length db.now ≤ 1048576) × Stands db.now from }
    requires db_value { text_from lines bytes (text_from from.line from.place (text_at db.now 0)) ≡ text_from line place (text_at db.now 0) }
    ensures { Stands db.now result × (result.line ≡ line) × (result.place ≡ place) }
{
    let start = skip_lines(db, from.at, lines);
    let at = skip_bytes(db, start, bytes);
    let position = move_on(db, from.at, at, from.position);
    Spot {
        line,
        place,
        at,
        position,
    }
}

impl Spot {
    // The start of the database.
    pub fn first(db: &[u8]) -> Spot
        ensures { Stands db.now result × (result.line ≡ 0) × (result.place ≡ 0) }
    {
        Spot {
            line: 0,
            place: 0,
            at: 0,
            position: Position { row: 1, column: 1 },
        }
    }
}

// The spot that a record names, from another one. Records come in order, so that all of them take one pass over the database.
pub fn find_spot(db: &[u8], from: Spot, line: usize, place: usize) -> Spot
    requires { (length db.now ≤ 1048576) × Stands db.now from }
    ensures { Stands db.now result × (result.line ≡ line) × (result.place ≡ place) }
{
    if from.line < line {
        return advance(db, from, line - from.line, place, line, place);
    }
    if from.line == line && from.place <= place {
        return advance(db, from, 0, place - from.place, line, place);
    }
    advance(db, Spot::first(db), line, place, line, place)
}

// Where the first byte of the joined text at a place stands.
fn own_place(db: &[u8], at: usize) -> usize
    requires { at ≤ length db.now }
    ensures { (result ≡ place_of (length db.now) (text_at db.now at)) × (at ≤ result) × (result ≤ length db.now) }
{
    match peek(db, at) {
        Some((_, n)) => n - 1,
        None => db.len(),
    }
}

// The position of the byte that a spot names.
pub fn own_position(db: &[u8], s: Spot) -> Position
    requires { (length db.now ≤ 1048576) × Stands db.now s }
    ensures { result ≡ position_of db.now s.line s.place }
{
    move_on(db, s.at, own_place(db, s.at), s.position)
}

// ---- the text of a note

fn is_plain(b: u8) -> bool
    ensures { result ≡ between 32 126 b }
{
    matches!(b, b' '..=b'~')
}

// A byte, or a backslash and three octal digits.
fn put_shown(out: &mut [u8], at: usize, b: u8) -> usize
    requires { at ≤ 1000000 }
    ensures { Put (shown_byte b) out.old at out.new result × (result ≤ at + 4) }
{
    if is_plain(b) {
        put_byte(out, at, b);
        return at + 1;
    }
    let digits = [b'\\', b'0' + b / 64, b'0' + b / 8 % 8, b'0' + b % 8];
    put_bytes(out, at, &digits);
    at + 4
}

fn put_joined(db: &[u8], from: usize, count: usize, out: &mut [u8], at: usize) -> usize
    requires { (count ≤ 60) × (at ≤ 100000) }
    ensures { Put (shown_bytes count (text_at db.now from)) out.old at out.new result × (result ≤ at + 4 * count) }
{
    let mut p = from;
    let mut end = at;
    for _ in 0..count {
        match peek(db, p) {
            Some((b, n)) => {
                end = put_shown(out, end, b);
                p = n;
            }
            None => return end,
        }
    }
    end
}

// The first bytes of what was removed, and three points where there are more.
fn put_removed(db: &[u8], from: usize, count: usize, out: &mut [u8], at: usize) -> usize
    requires { at ≤ 100000 }
    ensures { Put (shown count (text_at db.now from)) out.old at out.new result × (result ≤ at + 243) }
{
    if count > MOST_SHOWN {
        let end = put_joined(db, from, MOST_SHOWN, out, at);
        put_bytes(out, end, b"...");
        return end + 3;
    }
    put_joined(db, from, count, out, at)
}

// The path, the line and the column.
fn put_place(path: &[u8], p: Position, out: &mut [u8]) -> usize
    requires { length path.now ≤ 4096 }
    ensures { Put (place_text path.now p) out.old 0 out.new result × (result ≤ length path.now + 44) }
{
    put_bytes(out, 0, path);
    put_byte(out, path.len(), b':');
    let row = put_decimal(out, path.len() + 1, p.row as u64);
    put_byte(out, row, b':');
    let column = put_decimal(out, row + 1, p.column as u64);
    put_bytes(out, column, b": ");
    column + 2
}

// The note of a thing of so many joined bytes, from a place of the database on.
pub fn put_note(
    path: &[u8],
    p: Position,
    reason: &[u8],
    db: &[u8],
    from: usize,
    count: usize,
    out: &mut [u8],
) -> usize
    requires { (length path.now ≤ 4096) × (length reason.now ≤ 100) }
    ensures { Put (note path.now p reason.now (shown count (text_at db.now from)))
        out.old 0 out.new result
        × (result ≤ 4500) }
{
    let at = put_place(path, p, out);
    put_bytes(out, at, reason);
    let colon = at + reason.len();
    put_bytes(out, colon, b": ");
    let end = put_removed(db, from, count, out, colon + 2);
    put_byte(out, end, b'\n');
    end + 1
}
