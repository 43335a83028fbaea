// Filling in a position: a command's body for two parameters, into a lent buffer.
#![tactic(auto)]

ghost use Rattle.std.specs.Prelude.{◌≡◌, ◌+◌, ◌-◌, ◌*◌, ◌≤◌, ◌<◌, ◌^◌, length};
ghost use Rattle.std.proofs.lemmas.List.Edits.{sets};
ghost use Rattle.spec.specs.Digits.{spell, written, Fewest};
ghost use Rattle.spec.specs.Sequences.{output_bytes};
ghost use Rattle.spec.specs.Position.{plain_of, percent_of};
ghost use Rattle.spec.specs.declared.position.Pending.TheVariants.{Letter};
ghost use Rattle.places.specs.Places.{parameters_of};
ghost use Rattle.position.specs.Filling.{unused, plain_bound, percent_bound, SequenceDone, StepTaken, BodyFilled};

use places::Places;
use sequences::{perform, read_sequence};
use spec::Refusal;
use spec::position::{Output, Raising};
use stores::put_byte;

// How many percent steps may be nested, each with the plain step before it, so that the stack does not grow with the command.
const DEPTH: usize = 12;

// ---- writing: a store past the buffer's end is no store, so that with an empty part of the buffer the same code only measures

// How many digits a number has; none for 0.
fn digits_in(n: u16) -> usize
    ensures { Fewest 10 0 n result }
{
    match n {
        0 => 0,
        1..=9 => 1,
        10..=99 => 2,
        100..=999 => 3,
        1000..=9999 => 4,
        _ => 5,
    }
}

fn digit_count(n: u16, least: u8) -> usize
    ensures { Fewest 10 least n result }
{
    digits_in(n).max(least as usize)
}

// A number in `count` digits, from the last one on.
fn write_digits(n: u16, count: usize, out: &mut [u8], at: usize)
    requires { (at + count < 2 ^ 64) × (n < 10 ^ count) }
    ensures { out.new ≡ sets out.old at (spell 10 count n) }
{
    let mut rest = n;
    for i in (0..count).rev() {
        put_byte(out, at + i, b'0' + (rest % 10) as u8);
        rest /= 10;
    }
}

// A number of any width, and the place after it.
fn write_wide(n: u16, least: u8, out: &mut [u8], at: usize) -> usize
    requires { at + length (written 10 least n) < 2 ^ 64 }
    ensures { (result ≡ at + length (written 10 least n)) × (out.new ≡ sets out.old at (written 10 least n)) }
{
    let count = digit_count(n, least);
    write_digits(n, count, out, at);
    at + count
}

// The same, with one digit or two, as most are, written at once.
fn write_number(n: u16, least: u8, out: &mut [u8], at: usize) -> usize
    requires { at + length (written 10 least n) < 2 ^ 64 }
    ensures { (result ≡ at + length (written 10 least n)) × (out.new ≡ sets out.old at (written 10 least n)) }
{
    if least != 1 {
        return write_wide(n, least, out, at);
    }
    if n < 10 {
        put_byte(out, at, b'0' + n as u8);
        return at + 1;
    }
    if n < 100 {
        put_byte(out, at, b'0' + (n / 10) as u8);
        put_byte(out, at + 1, b'0' + (n % 10) as u8);
        return at + 2;
    }
    write_wide(n, least, out, at)
}

// Writes what a sequence writes, and answers the place after it.
fn write_output(x: Output, out: &mut [u8], at: usize) -> usize
    requires { at + length (output_bytes x) < 2 ^ 64 }
    ensures { (result ≡ at + length (output_bytes x)) × (out.new ≡ sets out.old at (output_bytes x)) }
{
    match x {
        Output::Nothing => at,
        Output::Single(b) => {
            put_byte(out, at, b);
            at + 1
        }
        Output::Number(n, least) => write_number(n, least, out, at),
    }
}

// ---- "plain bytes and percent sequences alternate until the command is used up"

// How far the steps came: to the end, at a place and with these parameters; or to a pause, with so many bytes left.
#[derive(Clone, Copy)]
enum Step {
    Done(usize, Places),
    Paused(usize, usize, Places),
}

// A sequence that was done: the place after it in the command, the place after what it wrote, and the parameters.
#[derive(Clone, Copy)]
struct Sequenced {
    next: usize,
    end: usize,
    places: Places,
}

// Reads a sequence from its letter on, does it, and writes what it writes.
fn do_sequence(
    command: &[u8],
    from: usize,
    g: Raising,
    ps: Places,
    out: &mut [u8],
    at: usize,
) -> Result<Sequenced, Refusal>
    requires { (from ≤ length command.now) × (at + (length command.now - from) + 1 + 3 * unused (parameters_of ps) < 2 ^ 64) }
    ensures { SequenceDone command.now from g (parameters_of ps) out.old at result out.new }
{
    let Some((sequence, next)) = read_sequence(command, from) else {
        return Err(Refusal::UnknownSequence);
    };
    let performed = perform(g, sequence, ps)?;
    Ok(Sequenced {
        next,
        end: write_output(performed.output, out, at),
        places: performed.places,
    })
}

// Where a plain byte or a percent sign is due: a run of plain bytes up to the next sign.
#[cycle(percent_plain)]
fn plain(
    command: &[u8],
    g: Raising,
    ps: Places,
    out: &mut [u8],
    at: usize,
    depth: usize,
) -> Result<Step, Refusal>
    requires { plain_bound command.now (parameters_of ps) at < 2 ^ 64 }
    ensures { StepTaken command.now g (plain_of command.now g (parameters_of ps)) out.old at
        (plain_bound command.now (parameters_of ps) at) result out.new }
{
    for (i, &b) in command.iter().enumerate() {
        if b == b'%' {
            return percent(&command[i + 1..], g, ps, out, at + i, depth);
        }
        put_byte(out, at + i, b);
    }
    Ok(Step::Done(at + command.len(), ps))
}

// Sequences that follow each other, from the letter of the first one on, up to the next plain byte.
#[cycle(percent_plain)]
fn percent(
    command: &[u8],
    g: Raising,
    first: Places,
    out: &mut [u8],
    start: usize,
    depth: usize,
) -> Result<Step, Refusal>
    requires { percent_bound command.now (parameters_of first) start < 2 ^ 64 }
    ensures { StepTaken command.now g (percent_of command.now Letter g (parameters_of first)) out.old start
        (percent_bound command.now (parameters_of first) start) result out.new }
{
    let mut i = 0;
    let mut at = start;
    let mut ps = first;
    loop {
        let done = do_sequence(command, i, g, ps, out, at)?;
        if done.next == command.len() {
            return Ok(Step::Done(done.end, done.places));
        }
        if command[done.next] != b'%' {
            if depth == 0 {
                return Ok(Step::Paused(command.len() - done.next, done.end, done.places));
            }
            return plain(
                &command[done.next..],
                g,
                done.places,
                out,
                done.end,
                depth - 1,
            );
        }
        i = done.next + 1;
        at = done.end;
        ps = done.places;
    }
}

// A body filled in: the place after its bytes, and the parameters as it leaves them.
#[derive(Clone, Copy)]
pub struct BodyEnd {
    pub end: usize,
    pub places: Places,
}

// Fills a body in from the start of the buffer on; with an empty part of it, only measures.
pub fn fill_body(
    command: &[u8],
    g: Raising,
    first: Places,
    out: &mut [u8],
) -> Result<BodyEnd, Refusal>
    ensures { BodyFilled (plain_of command.now g (parameters_of first)) out.old result out.new }
{
    let mut left = command.len();
    let mut at = 0;
    let mut ps = first;
    loop {
        let from = command.len() - left;
        match plain(&command[from..], g, ps, out, at, DEPTH)? {
            Step::Done(end, places) => return Ok(BodyEnd { end, places }),
            Step::Paused(still, end, places) => {
                left = still;
                at = end;
                ps = places;
            }
        }
    }
}
