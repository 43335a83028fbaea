// What the programs of cases share: they read their cases from lines of fields, and write the answers.
//
// A bar stands after each field of a line but the last. In a text a backslash and two hexadecimal digits stand for a byte.
#![tactic(auto)]

ghost use Rattle.std.specs.Prelude.{◌≡◌, ◌==◌, ◌∷◌, ◌≤◌, [], MatchOption, slice_get, min, length};
ghost use Rattle.std.specs.List.{slice_split};
ghost use Rattle.std.specs.Option.{option_map};
ghost use Rattle.std.proofs.lemmas.List.Edits.{sets};
ghost use Rattle.io.specs.Counts.{IsPrefixLen};
ghost use Rattle.case_lines.specs.Fields.{field_of, digit_of, number_of, hex_digit_of, bytes_of, text_of};

use spec::{Part, Refusal};

// What stands between two bars, if there are as many.
fn piece(line: &[u8], k: usize) -> Option<&[u8]>
    ensures { option_map (λ p. p.now) result ≡ slice_get (slice_split (λ b. b == 124) line.now) k }
{
    line.split(|b| *b == b'|').nth(k)
}

fn field(line: &[u8], k: u8) -> &[u8]
    ensures { result.now ≡ field_of line.now k }
{
    match piece(line, k as usize) {
        Some(f) => f,
        None => b"",
    }
}

fn digit(b: u8) -> u8
    ensures { (result ≡ digit_of b) × (result ≤ 9) }
{
    match b {
        b'0'..=b'9' => b - b'0',
        _ => 0,
    }
}

// A field that is a decimal number, of nine digits at most.
pub fn number(line: &[u8], k: u8) -> u64
    ensures { result ≡ number_of line.now k }
{
    let mut n = 0;
    for b in field(line, k) {
        if n > 99999999 {
            return n;
        }
        n = n * 10 + digit(*b) as u64;
    }
    n
}

pub fn byte(line: &[u8], k: u8) -> u8
    ensures { result ≡ min 255 (number_of line.now k) }
{
    number(line, k).min(255) as u8
}

fn hex_digit(b: u8) -> u8
    ensures { (result ≡ hex_digit_of b) × (result ≤ 15) }
{
    match b {
        b'a'..=b'f' => b - b'a' + 10,
        _ => digit(b),
    }
}

// The first byte of a text, and what stands after it.
fn decode(s: &[u8]) -> Option<(u8, &[u8])>
    ensures { MatchOption result (s.now ≡ []) (λ d. (bytes_of s.now ≡ d.0 ∷ bytes_of d.1.now)) }
{
    let (b, rest) = s.split_first()?;
    match rest {
        [c, d, rest @ ..] if *b == b'\\' => {
            let high = hex_digit(*c);
            let low = hex_digit(*d);
            Some((16 * high + low, rest))
        }
        _ => Some((*b, rest)),
    }
}

// A field that is a text, as far as it fits.
pub fn text(line: &[u8], k: u8, out: &mut [u8]) -> usize
    ensures value { (result ≡ min (length (text_of line.now k)) (length out.new))
        × (out.new ≡ sets out.old 0 (text_of line.now k)) }
    ensures prefix_len { IsPrefixLen result out.new }
{
    let mut rest = field(line, k);
    for (n, place) in out.iter_mut().enumerate() {
        match decode(rest) {
            Some((b, after)) => {
                *place = b;
                rest = after;
            }
            None => return n,
        }
    }
    out.len()
}

// As many bytes of a buffer as a field says, or all.
pub fn room(line: &[u8], k: u8, buffer: &[u8]) -> usize
    ensures value { result ≡ min (length buffer.now) (number_of line.now k) }
    ensures prefix_len { IsPrefixLen result buffer.now }
{
    buffer.len().min(number(line, k) as usize)
}

// ---- printing: what is written no contract can say, and nothing is answered

pub fn show_refusal(n: u8) {
    io::write_all(1, b" refused ");
    io::print_decimal(1, n as u64);
}

fn show_answer(answer: Result<usize, Refusal>) {
    match answer {
        Ok(n) => {
            io::write_all(1, b" ok ");
            io::print_decimal(1, n as u64);
        }
        Err(r) => show_refusal(r.number()),
    }
}

// The ends of what Show shows, or a refusal.
pub fn show_part(shown: Result<Part, Refusal>) {
    match shown {
        Ok(Part { from, to }) => {
            io::write_all(1, b" part ");
            io::print_decimal(1, from as u64);
            io::write_all(1, b" ");
            io::print_decimal(1, to as u64);
        }
        Err(r) => show_refusal(r.number()),
    }
}

// The answer to Flag, Number or String.
pub fn show_value(answer: Result<Option<u32>, Refusal>) {
    match answer {
        Ok(Some(v)) => {
            io::write_all(1, b" present ");
            io::print_decimal(1, v as u64);
        }
        Ok(None) => {
            io::write_all(1, b" absent");
        }
        Err(r) => show_refusal(r.number()),
    }
}

fn show_byte(b: u8) {
    io::write_all(1, b" ");
    io::print_decimal(1, b as u64);
}

pub fn show_bytes(buffer: &[u8]) {
    for b in buffer {
        show_byte(*b);
    }
}

// A count or a refusal, and the buffer afterwards.
pub fn show_written(answer: Result<usize, Refusal>, buffer: &[u8]) {
    show_answer(answer);
    io::write_all(1, b":");
    show_bytes(buffer);
    io::write_all(1, b"\n");
}
