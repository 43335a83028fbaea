// Padding: the prefix of a decoded command, and the count of pads for its delay.
#![tactic(auto)]

ghost use Rattle.std.specs.Prelude.{◌≡◌, ◌≤◌, length};
ghost use Rattle.spec.specs.Digits.{is_digit};
ghost use Rattle.spec.specs.Padding.{pad_count};
ghost use Rattle.padding.specs.Reading.{DigitsRead, StarRead, PrefixRead};

use spec::Refusal;

// A prefix that was read: its delay in tenths of a millisecond, not yet times lines; its star; and the place where the body starts.
#[derive(Clone, Copy)]
pub struct Prefix {
    pub delay: u32,
    pub star: bool,
    pub from: usize,
}

// Digits that were read, at most five: their value, and the place after them.
#[derive(Clone, Copy)]
struct DigitRun {
    value: u32,
    end: usize,
}

fn is_digit(b: u8) -> bool
    ensures { result ≡ is_digit 10 b }
{
    matches!(b, b'0'..=b'9')
}

// Five digits are enough to refuse: "over 4 digits before the point, or over one after it". A reader of its own: that of `fields` reads
// joined bytes, in two bases.
fn read_digits(s: &[u8], at: usize) -> DigitRun
    requires { at ≤ length s.now }
    ensures { DigitsRead s.now at result.value result.end }
{
    let limit = s.len().min(at + 5);
    let mut value = 0;
    for i in at..limit {
        let b = s[i];
        if !is_digit(b) {
            return DigitRun { value, end: i };
        }
        value = value * 10 + (b - b'0') as u32;
    }
    DigitRun { value, end: limit }
}

// "Then maybe `*`."
fn read_star(s: &[u8], at: usize, delay: u32) -> Prefix
    requires { at ≤ length s.now }
    ensures { StarRead s.now at delay result }
{
    match s.get(at) {
        Some(b'*') => Prefix {
            delay,
            star: true,
            from: at + 1,
        },
        _ => Prefix {
            delay,
            star: false,
            from: at,
        },
    }
}

// "Digits, then maybe `.` and a digit, then maybe `*`."
pub fn read_prefix(command: &[u8]) -> Result<Prefix, Refusal>
    ensures { PrefixRead command.now result }
{
    let whole = read_digits(command, 0);
    let end = whole.end;
    if end == 0 {
        return Ok(Prefix {
            delay: 0,
            star: false,
            from: 0,
        });
    }
    if end > 4 {
        return Err(Refusal::BadPadding);
    }
    let delay = 10 * whole.value;
    let Some(b'.') = command.get(end) else {
        return Ok(read_star(command, end, delay));
    };
    let tenths = read_digits(command, end + 1);
    // The point alone belongs to the body.
    match tenths.end - end {
        1 => Ok(Prefix {
            delay,
            star: false,
            from: end,
        }),
        2 => Ok(read_star(command, tenths.end, delay + tenths.value)),
        _ => Err(Refusal::BadPadding),
    }
}

// "Ten bits a byte: the count is d times speed over 100,000, rounded up."
pub fn pad_count(delay: u32, speed: u32) -> u64
    ensures { result ≡ pad_count delay speed }
{
    (delay as u64 * speed as u64 + 99999) / 100000
}
