// Send, Send at and its two halves: a command's body with its padding, into a lent buffer. Nothing is written before it is known that all
// fits.
#![tactic(auto)]

ghost use Rattle.std.specs.Prelude.{◌≡◌, ◌++◌, ◌≤◌, ◌<◌, length, drop, replicate};
ghost use Rattle.std.proofs.lemmas.List.Edits.{sets};
ghost use Rattle.spec.specs.Choice.{both};
ghost use Rattle.spec.specs.Padding.{delay_for, pad_count};
ghost use Rattle.spec.specs.Answers.{written_report, filled_report};
ghost use Rattle.spec.specs.Sending.{good_speed, sends, padded, delivered, send_outcome, send_report, send_at_outcome, send_at_report};
ghost use Rattle.spec.specs.Sending.{filled_answer, fill_outcome, fill_report, pad_outcome, pad_report};
ghost use Rattle.sending.specs.Steps.{CommandJudged, apart, fault_or, with_pads, held_for, good_row, good_column, filled_for};

use compensations::fill_in;
use padding::{Prefix, pad_count, read_prefix};
use places::{Places, ZERO};
use spec::position::{Column, Row};
use spec::{Finished, Refusal};

// How the last row and the last column, 9,999, are held.
const LAST: u16 = ZERO + 9999;

// ---- the inputs and the pads

const MOST_LINES: u64 = 1000;

// In bits a second.
const TOP_SPEED: u64 = 115200;

// "Lines 1..1,000, speed 0..115,200 bits a second, else 12."
fn good_speed(lines: u64, speed: u64) -> bool
    ensures { result ≡ good_speed lines speed }
{
    1 <= lines && lines <= MOST_LINES && speed <= TOP_SPEED
}

// The greatest value that a row or a column can have.
const GREATEST: u64 = 32767;

// A number that comes in, as a row or a column holds it. What is above 32,767 is held as that, which is out of range as well.
fn held_for(n: u64) -> u16
    ensures { result ≡ held_for n }
{
    ZERO + n.min(GREATEST) as u16
}

// Row and column "each 0..9,999". Twins by their types, on purpose: a row is never taken for a column (decision 44).
fn good_row(row: Row) -> bool
    ensures { result ≡ good_row row }
{
    row.0 <= LAST
}

fn good_column(column: Column) -> bool
    ensures { result ≡ good_column column }
{
    column.0 <= LAST
}

fn good_place(row: Row, column: Column) -> bool
    ensures { result ≡ both (good_row row) (good_column column) }
{
    good_row(row) && good_column(column)
}

// "Times lines if starred."
fn delay_for(delay: u32, star: bool, lines: u64) -> u32
    requires { (delay < 100000) × (lines ≤ 1000) }
    ensures { result ≡ delay_for delay star lines }
{
    if star {
        return delay * lines as u32;
    }
    delay
}

fn pads_for(delay: u32, star: bool, lines: u64, speed: u64) -> usize
    requires { (delay < 100000) × (lines ≤ 1000) × (speed ≤ 115200) }
    ensures { result ≡ pad_count (delay_for delay star lines) speed }
{
    pad_count(delay_for(delay, star, lines), speed as u32) as usize
}

// "The pads are written into the room that is left", which is lent to this.
fn write_pads(room: &mut [u8], count: usize, pad: u8)
    requires { count ≤ length room.old }
    ensures { room.new ≡ replicate count pad ++ drop count room.old }
{
    room[..count].fill(pad);
}

// ---- Send

// By a loop: with `copy_from_slice` the archive would need `memmove` from outside.
fn copy_front(bytes: &[u8], out: &mut [u8])
    requires { length bytes.now ≤ length out.old }
    ensures { out.new ≡ sets out.old 0 bytes.now }
{
    for i in 0..bytes.len() {
        out[i] = bytes[i];
    }
}

// "Send copies percent signs unchanged."
fn send_copied(bytes: &[u8], pads: usize, pad: u8, out: &mut [u8]) -> Result<usize, Refusal>
    ensures { (result ≡ (delivered (sends (bytes.now ++ replicate pads pad)) out.old).answer)
        × (out.new ≡ (delivered (sends (bytes.now ++ replicate pads pad)) out.old).buffer) }
{
    let n = bytes.len();
    if n > out.len() {
        return Err(Refusal::NoRoom);
    }
    if pads > out.len() - n {
        return Err(Refusal::NoRoom);
    }
    copy_front(bytes, out);
    write_pads(&mut out[n..], pads, pad);
    Ok(n + pads)
}

// Finished bytes and their delay: "then 12 for lines and speed, then 9".
fn pad_bytes(
    delay: u32,
    star: bool,
    bytes: &[u8],
    lines: u64,
    speed: u64,
    pad: u8,
    out: &mut [u8],
) -> Result<usize, Refusal>
    requires { delay < 100000 }
    ensures { (result ≡ (delivered (padded (apart delay star bytes.now) lines speed pad) out.old).answer)
        × (out.new ≡ (delivered (padded (apart delay star bytes.now) lines speed pad) out.old).buffer) }
{
    if !good_speed(lines, speed) {
        return Err(Refusal::OutOfRange);
    }
    send_copied(bytes, pads_for(delay, star, lines, speed), pad, out)
}

// Send: "body and padding". "For plain Send 13, 12, 9."
pub fn send(
    command: &[u8],
    lines: u64,
    speed: u64,
    pad: u8,
    out: &mut [u8],
) -> Result<usize, Refusal>
    ensures { (result ≡ (send_outcome command.now lines speed pad out.old).answer)
        × (out.new ≡ (send_outcome command.now lines speed pad out.old).buffer)
        × (written_report result ≡ send_report command.now lines speed pad out.old) }
{
    let prefix = read_prefix(command)?;
    let body = &command[prefix.from..];
    pad_bytes(prefix.delay, prefix.star, body, lines, speed, pad, out)
}

// The longest delay that a prefix can state, 9,999.9 ms, in tenths.
const LONGEST_DELAY: u64 = 99999;

// The second half of Send at, for what the first one gave. "A delay over 99,999 tenths before its star is 12 as well."
pub fn pad(
    delay: u64,
    star: bool,
    bytes: &[u8],
    lines: u64,
    speed: u64,
    pad: u8,
    out: &mut [u8],
) -> Result<usize, Refusal>
    ensures { (result ≡ (pad_outcome delay star bytes.now lines speed pad out.old).answer)
        × (out.new ≡ (pad_outcome delay star bytes.now lines speed pad out.old).buffer)
        × (written_report result ≡ pad_report delay star bytes.now lines speed pad out.old) }
{
    if delay > LONGEST_DELAY {
        return Err(Refusal::OutOfRange);
    }
    pad_bytes(delay as u32, star, bytes, lines, speed, pad, out)
}

// ---- Send at

// A command for a place, with its prefix split off: "12 for row and column, 13."
fn judge(command: &[u8], in_range: bool) -> Result<Prefix, Refusal>
    ensures { CommandJudged command.now in_range result }
{
    if !in_range {
        return Err(Refusal::OutOfRange);
    }
    read_prefix(command)
}

// So many bytes are filled in beside the buffer, and then copied.
const SMALL: usize = 128;

// The body is filled in beside the buffer, which keeps its bytes until all is known to fit. What is longer is only measured there, and is
// filled in again.
fn send_filled(
    body: &[u8],
    row: Row,
    column: Column,
    back: &[u8],
    up: &[u8],
    pads: usize,
    pad: u8,
    out: &mut [u8],
) -> Result<usize, Refusal>
    ensures { (result
        ≡ (delivered (with_pads (filled_for body.now row column back.now up.now) pads pad) out.old).answer)
        × (out.new
        ≡ (delivered (with_pads (filled_for body.now row column back.now up.now) pads pad) out.old).buffer) }
{
    let capacity = out.len();
    let first = Places::both_unused(row, column);
    let mut small = [0u8; SMALL];
    match fill_in(body, first, back, up, capacity, &mut small) {
        Err(r) => Err(r),
        Ok(None) => Err(Refusal::NoRoom),
        Ok(Some(n)) => {
            if pads > capacity - n {
                return Err(Refusal::NoRoom);
            }
            if n <= SMALL {
                // From an array of its own, so that this is `memcpy`.
                out[..n].copy_from_slice(&small[..n]);
                write_pads(&mut out[n..], pads, pad);
                return Ok(n + pads);
            }
            // The same, as was measured.
            let _ = fill_in(body, first, back, up, capacity, out);
            write_pads(&mut out[n..], pads, pad);
            Ok(n + pads)
        }
    }
}

// The first fault of a body; or 12, which comes next where lines or speed are out of their ranges.
fn first_fault(body: &[u8], row: Row, column: Column, back: &[u8], up: &[u8]) -> Refusal
    ensures { result ≡ fault_or (filled_for body.now row column back.now up.now) }
{
    match fill_in(body, Places::both_unused(row, column), back, up, 0, &mut []) {
        Err(r) => r,
        Ok(_) => Refusal::OutOfRange,
    }
}

// Send at "takes also a row, a column, a back string and an up string". "12 for row and column, 13, the body's faults, then 12 for lines and
// speed, then 9."
pub fn send_at(
    command: &[u8],
    row: u64,
    column: u64,
    back: &[u8],
    up: &[u8],
    lines: u64,
    speed: u64,
    pad: u8,
    out: &mut [u8],
) -> Result<usize, Refusal>
    ensures { (result ≡ (send_at_outcome command.now row column back.now up.now lines speed pad out.old).answer)
        × (out.new ≡ (send_at_outcome command.now row column back.now up.now lines speed pad out.old).buffer)
        × (written_report result ≡ send_at_report command.now row column back.now up.now lines speed pad out.old) }
{
    let r = Row(held_for(row));
    let c = Column(held_for(column));
    let prefix = judge(command, good_place(r, c))?;
    let body = &command[prefix.from..];
    if !good_speed(lines, speed) {
        return Err(first_fault(body, r, c, back, up));
    }
    let pads = pads_for(prefix.delay, prefix.star, lines, speed);
    send_filled(body, r, c, back, up, pads, pad, out)
}

// The answer of the first half, once its bytes are written or do not fit.
fn filled_answer(
    delay: u32,
    star: bool,
    written: Result<usize, Refusal>,
) -> Result<Finished, Refusal>
    ensures { result ≡ filled_answer delay star written }
{
    match written {
        Err(r) => Err(r),
        Ok(count) => Ok(Finished { delay, star, count }),
    }
}

// The first half of Send at: the finished bytes go to the start of the buffer, the delay and its star into the answer.
pub fn fill(
    command: &[u8],
    row: u64,
    column: u64,
    back: &[u8],
    up: &[u8],
    out: &mut [u8],
) -> Result<Finished, Refusal>
    ensures { (result ≡ (fill_outcome command.now row column back.now up.now out.old).answer)
        × (out.new ≡ (fill_outcome command.now row column back.now up.now out.old).buffer)
        × (filled_report result ≡ fill_report command.now row column back.now up.now out.old) }
{
    let held_row = Row(held_for(row));
    let held_column = Column(held_for(column));
    let prefix = judge(command, good_place(held_row, held_column))?;
    let body = &command[prefix.from..];
    // Without pads.
    let written = send_filled(body, held_row, held_column, back, up, 0, 0, out);
    filled_answer(prefix.delay, prefix.star, written)
}
