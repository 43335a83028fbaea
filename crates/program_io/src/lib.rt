// What the programs share: reading a file or a line of input, messages on standard error, and numbers in a text. What is read or
// written no contract can say.
#![tactic(auto)]

ghost use Rattle.std.specs.Prelude.{◌+◌, ◌≤◌, ◌≡◌, ◌==◌, IsUtf8, MatchResult, length};
ghost use Rattle.std.specs.List.{position};
ghost use Rattle.std.proofs.lemmas.List.Edits.{sets};
ghost use Rattle.io.specs.Counts.{IsPrefixLen};
ghost use Rattle.spec.specs.Digits.{written};
ghost use Rattle.program_io.specs.Inputs.{Within, MoreRead, LineRead};

use std::env::{Env, FillError};
use std::fs;
use std::io::{Cursor, Error, ErrorKind, Read, Result, Write};
use std::rt::Files;
use stores::put_bytes;

// The longest text of the system's for a failure has 256 bytes; its number stands behind it.
const REASON_ROOM: usize = 320;

// The system's number for a name that is too long, as Linux has it.
const NAME_TOO_LONG: i32 = 36;

// Where a byte first stands.
fn place(s: &[u8], b: u8) -> Option<usize>
    ensures { result ≡ position (λ x. x == b) s.now }
{
    s.iter().position(|x| *x == b)
}

// ---- messages

// The reason that the system gives, without the number that std puts behind it in parentheses.
fn put_reason(reason: Error, text: &mut [u8]) -> usize
    ensures { IsPrefixLen result text.new }
{
    let n = put_error(reason, text);
    match place(&text[..n], b'(') {
        Some(end) if end > 0 => end - 1,
        _ => n,
    }
}

// An error as std writes it, as far as it fits.
fn put_error(error: Error, text: &mut [u8]) -> usize
    ensures { IsPrefixLen result text.new }
{
    let most = text.len();
    let mut writer = Cursor::new(text);
    let _ = write!(writer, "{error}");
    writer.position().min(most as u64) as usize
}

// A program's messages on standard error, each a line that begins with its name.
#[derive(Drop)]
pub struct Messages<'a, E: Print> {
    pub program: &'a [u8],
    pub err: &'a E,
}

impl<'a, E: Print> Messages<'a, E> {
    // What failed, and the reason that the system gives.
    pub fn fail(&self, what: &[u8], reason: Error) {
        let mut text = [0u8; REASON_ROOM];
        let n = put_reason(reason, &mut text);
        self.report(what, b": ");
        let _ = self.err.write_all(&text[..n]);
        let _ = self.err.write_all(b"\n");
    }

    // A file, and what is wrong with it.
    pub fn report(&self, path: &[u8], what: &[u8]) {
        self.say(path);
        let _ = self.err.write_all(what);
    }

    fn say(&self, what: &[u8]) {
        let _ = self.err.write_all(self.program);
        let _ = self.err.write_all(b": ");
        let _ = self.err.write_all(what);
    }

    // Writes a text to standard output, or says why that failed.
    pub fn print<O: Print>(&self, out: &O, text: &[u8]) {
        if let Err(reason) = out.write_all(text) {
            self.fail(b"standard output", reason);
        }
    }
}

// ---- arguments and files

// Whether the program was given an argument of that number, counted from 1.
pub fn has_argument<R: Env>(rt: &R, i: usize) -> bool {
    let mut start = [0u8; 1];
    !matches!(rt.arg(i, &mut start), Err(FillError::NotPresent))
}

// An argument at the start of a buffer. Of one that is too long the buffer holds what fits.
pub fn argument<R: Env>(rt: &R, i: usize, buffer: &mut [u8]) -> Result<usize>
    ensures { Within result buffer.new }
{
    rt.arg(i, buffer)
        .map_err(|_| Error::from_raw_os_error(NAME_TOO_LONG))
}

// A file's name as std takes it: text in UTF-8, byte for byte the same.
pub fn name(path: &[u8]) -> Result<&str>
    ensures { MatchResult result (λ text. (text.now ≡ path.now) × IsUtf8 path.now) (λ e. ¬ (IsUtf8 path.now)) }
{
    std::str::from_utf8(path).map_err(|_| Error::new(
        ErrorKind::InvalidInput,
        "A name in UTF-8 is wanted",
    ))
}

fn open_read<R: Files>(rt: &R, path: &[u8]) -> Result<R::File> {
    fs::open(rt, name(path)?)
}

// ---- reading

// One read, after the bytes that were read before it. Where none is added, the input has ended.
fn read_more<R: Read>(file: &mut R, buffer: &mut [u8], used: usize) -> Result<usize>
    requires { used ≤ length buffer.old }
    ensures { MoreRead used result buffer.new }
{
    let more = file.read(&mut buffer[used..])?;
    Ok(used + more)
}

// Reads until the file ends or the buffer is full.
pub fn read_file<R: Read>(file: &mut R, buffer: &mut [u8]) -> Result<usize>
    ensures { Within result buffer.new }
{
    // Not by std's `read_to_end`, which needs the heap.
    let mut used = 0;
    while used < buffer.len() {
        let n = read_more(file, buffer, used)?;
        if n == used {
            return Ok(n);
        }
        used = n;
    }
    Ok(used)
}

// Opens the file of that name, reads it as `read_file` does, and closes it.
pub fn read_path<R: Files>(rt: &R, path: &[u8], buffer: &mut [u8]) -> Result<usize>
    ensures { Within result buffer.new }
{
    let mut file = open_read(rt, path)?;
    read_file(&mut file, buffer)
}

// Reads until a newline is there, the input ends or the buffer is full: the bytes before the newline. Not by std's `read_line`, which needs
// the heap.
pub fn read_line<R: Read>(file: &mut R, buffer: &mut [u8]) -> Result<usize>
    ensures { LineRead result buffer.new }
{
    let mut used = 0;
    while used < buffer.len() {
        let n = read_more(file, buffer, used)?;
        if let Some(end) = place(&buffer[..n], b'\n') {
            return Ok(end);
        }
        if n == used {
            return Ok(n);
        }
        used = n;
    }
    Ok(used)
}

// A number in decimal, from a place on; the place after it.
pub fn put_decimal(out: &mut [u8], at: usize, n: u64) -> usize
    requires { at ≤ 1000000 }
    ensures value { (result ≡ at + length (written 10 1 n)) × (out.new ≡ sets out.old at (written 10 1 n)) }
    ensures upper_bound { result ≤ at + 20 }
{
    let mut digits = [0u8; 20];
    let k = io::decimal(n, &mut digits);
    put_bytes(out, at, &digits[..k]);
    at + k
}
