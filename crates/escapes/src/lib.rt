// The text of a string: the bytes that it stands for, with its escapes read.
#![tactic(auto)]

ghost use Rattle.std.specs.Prelude.{◌-◌, ◌≡◌, true};
ghost use Rattle.spec.specs.Digits.{is_digit};
ghost use Rattle.spec.specs.Strings.{plain, slash, caret, one_digit};
ghost use Rattle.escapes.specs.Steps.{TextBegins, Escapes, Decodes, Measures};

use field_bounds::field_byte;
use stores::put_after;

// The digits of an octal escape, and the greatest value of them.
const OCTAL_DIGITS: usize = 3;

const OCTAL_LIMIT: u16 = 255;

// The count of the bytes that a string's text stands for, or none for a fault in it; the place where the reader stopped; and the count of
// the text's bytes up to there.
#[derive(Clone, Copy)]
pub struct Measured {
    pub count: Option<usize>,
    pub stop: usize,
    pub passed: usize,
}

// A byte that a string's text stands for, with the place after what is written for it and the count of the bytes that are; the text's
// end; or a fault in it. No `Option`: the end is no fault.
#[derive(Clone, Copy)]
enum TextStep {
    Byte(u8, usize, usize),
    End,
    Bad,
}

// An octal escape after its first digit: "exactly three octal digits up to 377".
fn octal_escape(s: &[u8], at: usize, first: u8) -> TextStep
    requires { is_digit 8 first ≡ true }
    ensures { TextBegins (one_digit (first - 48)) s.now at result }
{
    let mut i = at;
    let mut v = u16::from(first - b'0');
    for _ in 1..OCTAL_DIGITS {
        match field_byte(s, i) {
            Some((b, n)) => match b {
                b'0'..=b'7' => {
                    v = v * 8 + u16::from(b - b'0');
                    i = n;
                }
                _ => return TextStep::Bad,
            },
            None => return TextStep::Bad,
        }
    }
    if v > OCTAL_LIMIT {
        return TextStep::Bad;
    }
    TextStep::Byte(v as u8, i, OCTAL_DIGITS + 1)
}

// The byte for a letter after a backslash.
#[tactic(auto, unfolding(spec::specs::Strings::escaped))]
fn escape_of(b: u8) -> Option<u8>
    ensures { Escapes b result }
{
    match b {
        b'E' => Some(27),
        b'n' => Some(b'\n'),
        b'r' => Some(b'\r'),
        b't' => Some(b'\t'),
        b'b' => Some(8),
        b'f' => Some(12),
        b'^' | b'\\' => Some(b),
        _ => None,
    }
}

// What stands after a backslash.
fn after_backslash(s: &[u8], at: usize) -> TextStep
    ensures { TextBegins slash s.now at result }
{
    match field_byte(s, at) {
        Some((b, n)) => match b {
            b'0'..=b'7' => octal_escape(s, n, b),
            _ => match escape_of(b) {
                Some(v) => TextStep::Byte(v, n, 2),
                None => TextStep::Bad,
            },
        },
        None => TextStep::Bad,
    }
}

// What stands after a caret: "a byte 63..126 (`^?` is 127, else the byte modulo 32)".
fn after_caret(s: &[u8], at: usize) -> TextStep
    ensures { TextBegins caret s.now at result }
{
    match field_byte(s, at) {
        Some((b, n)) => match b {
            b'?' => TextStep::Byte(127, n, 2),
            64..=126 => TextStep::Byte(b % 32, n, 2),
            _ => TextStep::Bad,
        },
        None => TextStep::Bad,
    }
}

// The first byte that the text of the field at a place stands for.
fn text_byte(s: &[u8], at: usize) -> TextStep
    ensures { TextBegins plain s.now at result }
{
    match field_byte(s, at) {
        Some((b, n)) => match b {
            b'\\' => after_backslash(s, n),
            b'^' => after_caret(s, n),
            b' '..=b'~' => TextStep::Byte(b, n, 1),
            _ => TextStep::Bad,
        },
        None => TextStep::End,
    }
}

// Decodes the text of the field at a place to the start of `out`, and counts its bytes; none for a fault in it. What has no room is not
// stored.
pub fn decode_text(s: &[u8], at: usize, out: &mut [u8]) -> Option<usize>
    ensures { Decodes s.now at out.old out.new result }
{
    let mut i = at;
    let mut k = 0;
    loop {
        match text_byte(s, i) {
            TextStep::Byte(b, n, _) => {
                put_after(out, 0, k, b);
                k += 1;
                i = n;
            }
            TextStep::End => return Some(k),
            TextStep::Bad => return None,
        }
    }
}

// Reads the text of the field at a place to count what it stands for, and stores nothing.
pub fn measure_text(s: &[u8], at: usize) -> Measured
    ensures { Measures s.now at result }
{
    let mut i = at;
    let mut k: usize = 0;
    let mut passed: usize = 0;
    loop {
        match text_byte(s, i) {
            TextStep::Byte(_, n, w) => {
                k += 1;
                passed += w;
                i = n;
            }
            TextStep::End => return Measured {
                count: Some(k),
                stop: i,
                passed,
            },
            TextStep::Bad => return Measured {
                count: None,
                stop: i,
                passed,
            },
        }
    }
}
