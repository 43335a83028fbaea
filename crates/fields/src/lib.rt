// What a field is read as: one field read at a place of the part of the database that starts after a line's names.
#![tactic(auto)]

ghost use Rattle.std.specs.Prelude.{◌≤◌, ◌≡◌, ◌∷◌};
ghost use Rattle.spec.specs.Choice.{pick};
ghost use Rattle.spec.specs.Digits.{is_digit};
ghost use Rattle.spec.specs.Lines.{blank};
ghost use Rattle.spec.specs.Refusals.{name_byte, id_byte, id_bytes};
ghost use Rattle.spec.specs.Fields.{number_base, ignored, malformed, content_reading, link_reading};
ghost use Rattle.field_bounds.specs.Answers.{field_at};
ghost use Rattle.fields.specs.Readings.{Starts, other_reading, name_reading, Numbers, Stops, Reads, ReadUpTo, FieldsFrom};

use escapes::measure_text;
use field_bounds::{field_byte, next_bounds};

// The most bytes of a name.
const NAME_LIMIT: usize = 64;

// The bases of a number.
const DECIMAL: u32 = 10;

const OCTAL: u32 = 8;

// The most digits of a number.
const DIGIT_LIMIT: usize = 6;

// The greatest number.
const NUMBER_LIMIT: u32 = 65535;

// What a field is read as: a link with the place of its name; a capability by the two bytes of its name, with its number, or with the
// place of its text and the count of its decoded bytes.
#[derive(Clone, Copy)]
pub enum FieldRead {
    Malformed,
    Ignored,
    Link(usize),
    Cancel(u8, u8),
    Flag(u8, u8),
    Number(u8, u8, u32),
    String(u8, u8, usize, usize),
}

// A field that is read so, of so many joined bytes, with the place behind it.
#[derive(Clone, Copy)]
pub struct Field {
    pub read: FieldRead,
    pub length: usize,
    pub next: usize,
}

// What a field is read as, the place where the reader stopped, and how many of the field's bytes stand before that place. A tuple:
// with named fields each of its values would take five lines.
#[derive(Clone, Copy)]
struct Stopped(FieldRead, usize, usize);

// The value of a number's digits, or none for a fault in them; the place where the reader stopped; and how many bytes it passed.
#[derive(Clone, Copy)]
struct Digits {
    value: Option<u32>,
    stop: usize,
    passed: usize,
}

// The rest of a field that starts with a space or a tab: "Only spaces and tabs: ignored".
fn read_blanks(s: &[u8], at: usize) -> Stopped
    requires { 1 ≤ at }
    ensures { Stops s.now at 1 (pick (blank (field_at s.now at)) ignored malformed) result }
{
    let mut i = at;
    let mut passed = 1;
    loop {
        match field_byte(s, i) {
            Some((b, n)) => match b {
                b'\t' | b' ' => {
                    passed += 1;
                    i = n;
                }
                _ => return Stopped(FieldRead::Malformed, i, passed),
            },
            None => return Stopped(FieldRead::Ignored, i, passed),
        }
    }
}

// The place after `start`, if the field at a place starts with it.
fn after_start(s: &[u8], at: usize, start: &[u8]) -> Option<usize>
    ensures { Starts s.now at start.now result }
{
    let mut i = at;
    for wanted in start {
        let (b, n) = field_byte(s, i)?;
        if b != *wanted {
            return None;
        }
        i = n;
    }
    Some(i)
}

// A byte of a name, as in refusal 1.
#[tactic(auto, unfolding(spec::specs::Refusals::name_byte))]
pub fn is_name_byte(b: u8) -> bool
    ensures { result ≡ name_byte b }
{
    matches!(b, b' '..=b'~') && !matches!(b, b':' | b'\\' | b'|')
}

// The name of a link, after `tc=`: "a name as in refusal 1".
fn read_link_name(s: &[u8], at: usize) -> Stopped
    ensures { Stops s.now at 3 (link_reading (61 ∷ field_at s.now at)) result }
{
    let mut i = at;
    let mut k: usize = 0;
    loop {
        match field_byte(s, i) {
            Some((b, n)) => {
                if k == NAME_LIMIT || !is_name_byte(b) {
                    return Stopped(FieldRead::Malformed, i, 3 + k);
                }
                k += 1;
                i = n;
            }
            None if k == 0 => return Stopped(FieldRead::Malformed, i, 3),
            None => return Stopped(FieldRead::Link(at), i, 3 + k),
        }
    }
}

// A byte of an id, as in refusal 2. By arms: two `matches!` take more instructions in each field.
#[tactic(auto, unfolding(spec::specs::Refusals::id_byte))]
fn is_id_byte(b: u8) -> bool
    ensures { result ≡ id_byte b }
{
    match b {
        b':' | b'\\' => false,
        b'!'..=b'~' => true,
        _ => false,
    }
}

// Whether two bytes are an id, as in refusal 2.
#[tactic(auto, unfolding(spec::specs::Refusals::id_bytes, spec::specs::Refusals::is_tc))]
pub fn is_id(a: u8, b: u8) -> bool
    ensures { result ≡ id_bytes a b }
{
    is_id_byte(a) && is_id_byte(b) && a != b'.' && (a != b't' || b != b'c')
}

// "A number of two or more digits starting with 0 is octal."
#[tactic(auto, using(crate::proofs::Numbers::base_none, crate::proofs::Numbers::base_other, crate::proofs::Numbers::base_one, crate::proofs::Numbers::base_octal))]
fn number_base(s: &[u8], at: usize) -> u32
    ensures { result ≡ number_base (field_at s.now at) }
{
    match field_byte(s, at) {
        Some((b, n)) if b == b'0' && field_byte(s, n).is_some() => OCTAL,
        _ => DECIMAL,
    }
}

// Whether a byte is a digit in a base.
fn is_digit(b: u8, base: u32) -> bool
    ensures { result ≡ is_digit base b }
{
    b >= b'0' && u32::from(b - b'0') < base
}

// "1 to 6 decimal digits of at most 65,535", in the number's base: "a digit 8 or 9 in [an octal one] is malformed".
// An octal escape is read by itself: it ends after three digits, and not with the field, so one reader for both would be two in one.
fn read_digits(s: &[u8], at: usize, base: u32) -> Digits
    requires { base ≡ number_base (field_at s.now at) }
    ensures { Numbers s.now at result }
{
    let mut stop = at;
    let mut passed: usize = 0;
    let mut v: u32 = 0;
    loop {
        match field_byte(s, stop) {
            Some((b, n)) => {
                if passed == DIGIT_LIMIT || !is_digit(b, base) {
                    return Digits {
                        value: None,
                        stop,
                        passed,
                    };
                }
                v = v * base + u32::from(b - b'0');
                passed += 1;
                stop = n;
            }
            None if passed == 0 || v > NUMBER_LIMIT => return Digits {
                value: None,
                stop,
                passed,
            },
            None => return Digits {
                value: Some(v),
                stop,
                passed,
            },
        }
    }
}

// "`#` and 1 to 6 decimal digits (number ...)."
fn read_number(s: &[u8], at: usize, a: u8, b: u8) -> Stopped
    ensures { Stops s.now at 3 (content_reading a b (35 ∷ field_at s.now at)) result }
{
    let digits = read_digits(s, at, number_base(s, at));
    let passed = 3 + digits.passed;
    match digits.value {
        Some(v) => Stopped(FieldRead::Number(a, b, v), digits.stop, passed),
        None => Stopped(FieldRead::Malformed, digits.stop, passed),
    }
}

// "`=` and a text (string)": the text is only judged and counted.
fn read_string(s: &[u8], at: usize, a: u8, b: u8) -> Stopped
    requires { 3 ≤ at }
    ensures { Stops s.now at 3 (content_reading a b (61 ∷ field_at s.now at)) result }
{
    let text = measure_text(s, at);
    let passed = 3 + text.passed;
    match text.count {
        Some(n) => Stopped(FieldRead::String(a, b, at, n), text.stop, passed),
        None => Stopped(FieldRead::Malformed, text.stop, passed),
    }
}

// "`@` and nothing (cancel)."
fn read_cancel(s: &[u8], at: usize, a: u8, b: u8) -> Stopped
    ensures { Stops s.now at 3 (content_reading a b (64 ∷ field_at s.now at)) result }
{
    match field_byte(s, at) {
        Some((_, n)) => Stopped(FieldRead::Malformed, n, 4),
        None => Stopped(FieldRead::Cancel(a, b), at, 3),
    }
}

// What stands after the two name bytes: "nothing (flag); `#` and digits (number); `=` and a text (string); `@` and nothing (cancel)".
fn read_content(s: &[u8], at: usize, a: u8, b: u8) -> Stopped
    requires { 2 ≤ at }
    ensures { Stops s.now at 2 (content_reading a b (field_at s.now at)) result }
{
    match field_byte(s, at) {
        Some((c, n)) => match c {
            b'#' => read_number(s, n, a, b),
            b'=' => read_string(s, n, a, b),
            b'@' => read_cancel(s, n, a, b),
            _ => Stopped(FieldRead::Malformed, n, 3),
        },
        None => Stopped(FieldRead::Flag(a, b), at, 2),
    }
}

// A field that is no link: "two name bytes as in refusal 2", and what follows them.
fn read_capability(s: &[u8], at: usize) -> Stopped
    ensures { Stops s.now at 0 (other_reading (field_at s.now at)) result }
{
    let Some((a, i)) = field_byte(s, at) else {
        return Stopped(FieldRead::Malformed, at, 0);
    };
    let Some((b, j)) = field_byte(s, i) else {
        return Stopped(FieldRead::Malformed, i, 1);
    };
    if !is_id(a, b) {
        return Stopped(FieldRead::Malformed, j, 2);
    }
    read_content(s, j, a, b)
}

// A field that is not ignored: "a link is a field that starts with the three bytes `tc=`, followed by a name as in refusal 1".
fn read_named(s: &[u8], at: usize) -> Stopped
    ensures { Stops s.now at 0 (name_reading (field_at s.now at)) result }
{
    match after_start(s, at, b"tc=") {
        Some(n) => read_link_name(s, n),
        None => read_capability(s, at),
    }
}

// The field at a place, up to where its reading is known: "Only spaces and tabs, or empty: ignored. First byte `.`: ignored."
fn read_from(s: &[u8], at: usize) -> Stopped
    ensures { ReadUpTo s.now at result }
{
    match field_byte(s, at) {
        Some((a, n)) => match a {
            b'\t' | b' ' => read_blanks(s, n),
            b'.' => Stopped(FieldRead::Ignored, n, 1),
            _ => read_named(s, at),
        },
        None => Stopped(FieldRead::Ignored, at, 0),
    }
}

// The field at a place and the place behind it. Its end is looked for from where its reader stopped, so that no byte is read again for it.
pub fn next_field(s: &[u8], at: usize) -> Option<Field>
    ensures { FieldsFrom s.now at result }
{
    let Stopped(read, i, passed) = read_from(s, at);
    match next_bounds(s, i) {
        Some(rest) => Some(Field {
            read,
            length: passed + rest.length,
            next: rest.next,
        }),
        None if passed == 0 => None,
        None => Some(Field {
            read,
            length: passed,
            next: s.len(),
        }),
    }
}
