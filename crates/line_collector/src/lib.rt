// The line of a name, collected from bytes as they arrive: the machine of a finder, a byte at a time and in blocks. It knows the joined line
// so far and whether a backslash is held; the calls of a finder are in the crate above.
#![tactic(auto)]

ghost use Rattle.std.specs.Prelude.{◌≡◌, true, false, List, ◌⊎◌, ℕ, ◌+◌, ◌≤◌, ◌<◌, length, get_or, take, drop, eqb};
ghost use Rattle.spec.specs.Choice.{pick, both, either};
ghost use Rattle.spec.specs.Refusals.{name_byte};
ghost use Rattle.spec.specs.Finder.{collect, matched_after, names_byte, line_byte, line_ends, joined_byte, feeding, fed, unheld_byte, one_byte, finished};
ghost use Rattle.line_collector.specs.Answers.{at, placed, in_stage, NoNewline, OtherName};

use fields::is_name_byte;
use spec::finder::{LONGEST_LINE, LineState};
use stores::put_byte;

// The stages of a line; any other number means that its names are being read. No enum: any byte comes in from C, and a blank leaves it there.
const BLANK: u8 = 0;

const NAMES: u8 = 1;

const MATCHING: u8 = 2;

const PASSED: u8 = 3;

pub const COMPLETE: u8 = 4;

pub const LINE_START: LineState = LineState {
    stage: BLANK,
    matched: 0,
    count: 0,
};

// A present name that is not the start of the asked one.
const DIFFERS: u8 = 65;

// Where a finder stands between two bytes. `held` is no bool: any byte comes in from C, and an empty block leaves it there.
#[derive(Clone, Copy)]
pub struct Place {
    pub held: u8,
    pub line: LineState,
}

// ---- a byte of the joined text

// The name and its limit are parameters: of a struct that lends the name each clause would speak as `asked.entry.name.now`.

#[tactic(auto, unfolding(spec::specs::Finder::collect))]
fn collect_byte(l: LineState, text: &mut [u8], b: u8) -> LineState
    ensures { at result text.new ≡ collect (at l text.old) b }
{
    if l.count > LONGEST_LINE {
        return l;
    }
    put_byte(text, l.count as usize, b);
    LineState {
        count: l.count + 1,
        ..l
    }
}

// A line in another stage, with no byte of a name.
fn in_stage(l: LineState, stage: u8) -> LineState
    ensures { result ≡ in_stage l stage }
{
    LineState {
        stage,
        matched: 0,
        ..l
    }
}

#[tactic(auto, unfolding(spec::specs::Finder::matched_after))]
fn matched_after(name: &[u8], k: u8, b: u8) -> u8
    requires { length name.now ≤ 64 }
    ensures { result ≡ matched_after name.now k b }
{
    match name.get(k as usize) {
        Some(c) if *c == b => k + 1,
        _ => DIFFERS,
    }
}

// "Lines that start with `#`": the first byte of a line, before any was collected.
fn starts_comment(count: u16, b: u8) -> bool
    ensures { result ≡ both (eqb count 0) (eqb b 35) }
{
    count == 0 && b == b'#'
}

// A blank leaves a blank line blank.
fn stage_after(stage: u8, b: u8) -> u8
    ensures { result ≡ pick (either (eqb b 32) (eqb b 9)) stage 1 }
{
    match b {
        b' ' | b'\t' => stage,
        _ => NAMES,
    }
}

// A colon or a bar ends the present name: the asked one, or another; a colon ends the names.
#[tactic(auto, unfolding(spec::specs::Finder::names_byte))]
fn end_name(name: &[u8], l: LineState, text: &mut [u8], b: u8) -> LineState
    requires { (b ≡ 58) ⊎ (b ≡ 124) }
    ensures { at result text.new ≡ names_byte name.now (at l text.old) b }
{
    if l.matched as usize == name.len() {
        return collect_byte(in_stage(l, MATCHING), text, b);
    }
    if b == b':' {
        return in_stage(l, PASSED);
    }
    collect_byte(in_stage(l, NAMES), text, b)
}

#[tactic(auto, unfolding(spec::specs::Finder::names_byte))]
fn names_byte(name: &[u8], l: LineState, text: &mut [u8], b: u8) -> LineState
    requires { length name.now ≤ 64 }
    ensures { at result text.new ≡ names_byte name.now (at l text.old) b }
{
    if starts_comment(l.count, b) {
        return in_stage(l, PASSED);
    }
    match b {
        b':' | b'|' => end_name(name, l, text, b),
        _ => {
            let longer = LineState {
                stage: stage_after(l.stage, b),
                matched: matched_after(name, l.matched, b),
                ..l
            };
            collect_byte(longer, text, b)
        }
    }
}

#[tactic(auto, unfolding(spec::specs::Finder::line_byte))]
fn line_byte(name: &[u8], l: LineState, text: &mut [u8], b: u8) -> LineState
    requires { length name.now ≤ 64 }
    ensures { at result text.new ≡ line_byte name.now (at l text.old) b }
{
    match l.stage {
        MATCHING => collect_byte(l, text, b),
        PASSED | COMPLETE => l,
        _ => names_byte(name, l, text, b),
    }
}

// The line ends; the text stays as it is.
#[tactic(auto, unfolding(spec::specs::Finder::line_ends))]
fn end_line(name: &[u8], l: LineState) -> LineState
    ensures { (t : List ℕ) → at result t ≡ line_ends name.now (at l t) }
{
    let complete = in_stage(l, COMPLETE);
    match l.stage {
        COMPLETE => l,
        MATCHING => complete,
        BLANK | PASSED => LINE_START,
        _ if l.matched as usize == name.len() => complete,
        _ => LINE_START,
    }
}

#[tactic(auto, unfolding(spec::specs::Finder::joined_byte))]
fn joined_byte(name: &[u8], l: LineState, text: &mut [u8], b: u8) -> LineState
    requires { length name.now ≤ 64 }
    ensures { at result text.new ≡ joined_byte name.now (at l text.old) b }
{
    if b == b'\n' {
        return end_line(name, l);
    }
    line_byte(name, l, text, b)
}

// ---- a byte as it arrives

// Whether a byte is held back until the next one is there: 1 for a backslash.
fn holds(b: u8) -> u8
    ensures { result ≡ pick (eqb b 92) 1 0 }
{
    u8::from(b == b'\\')
}

#[tactic(auto, unfolding(spec::specs::Finder::unheld_byte))]
fn unheld_byte(name: &[u8], l: LineState, text: &mut [u8], b: u8) -> Place
    requires { length name.now ≤ 64 }
    ensures { placed result text.new ≡ unheld_byte name.now (at l text.old) b }
{
    if b == b'\\' {
        return Place { held: 1, line: l };
    }
    let line = joined_byte(name, l, text, b);
    Place { held: 0, line }
}

#[tactic(auto, unfolding(spec::specs::Finder::one_byte))]
fn one_byte(name: &[u8], p: Place, text: &mut [u8], b: u8) -> Place
    requires { length name.now ≤ 64 }
    ensures { placed result text.new ≡ one_byte name.now (placed p text.old) b }
{
    let Place { held, line } = p;
    match (held, b) {
        (0, _) => unheld_byte(name, line, text, b),
        (_, b'\n') => Place { held: 0, line },
        _ => {
            let released = joined_byte(name, line, text, b'\\');
            unheld_byte(name, released, text, b)
        }
    }
}

// ---- a block

// The loop has no exit, so that all sixteen bytes are compared at once.
fn any_newline(s: &[u8], from: usize) -> bool
    requires { from + 16 ≤ length s.now }
    ensures { result ≡ false → NoNewline s.now from (from + 16) }
{
    let mut hit = false;
    for k in 0..16 {
        hit |= s[from + k] == b'\n';
    }
    hit
}

// The first newline from a place on, or the end, byte by byte: with `position` over the rest a database in blocks took an eighth longer.
fn first_newline(s: &[u8], from: usize) -> usize
    requires { from ≤ length s.now }
    ensures { (from ≤ result) × (result ≤ length s.now) × NoNewline s.now from result }
{
    for i in from..s.len() {
        if s[i] == b'\n' {
            return i;
        }
    }
    s.len()
}

// The first newline, or the end, sixteen bytes at a time. By index: over `as_chunks` the place would be `16 * k`, and the rest a case of its own.
fn next_newline(s: &[u8]) -> usize
    ensures { (result ≤ length s.now) × NoNewline s.now 0 result }
{
    let mut i = 0;
    while s.len() - i >= 16 && !any_newline(s, i) {
        i += 16;
    }
    first_newline(s, i)
}

// How many bytes of a block were taken, and how the finder stands behind them.
#[derive(Clone, Copy)]
pub struct Step {
    pub place: Place,
    pub taken: usize,
}

// A byte of a name that differs from the asked one already, in a line that has begun: it can only be collected.
fn is_collected_only(p: Place, b: u8) -> bool
    ensures { result ≡ true → (p.held ≡ 0) × OtherName p.line × (name_byte b ≡ true) }
{
    let Place { held, line } = p;
    held == 0 && line.stage == NAMES && line.matched == DIFFERS && line.count > 0 && is_name_byte(b)
}

fn collected(line: LineState, taken: usize) -> Step
    ensures { (result.place.held ≡ 0) × (result.place.line ≡ line) × (result.taken ≡ taken) }
{
    let place = Place { held: 0, line };
    Step { place, taken }
}

// Bytes of such a name, up to the first that may end it.
fn collect_name(l: LineState, rest: &[u8], text: &mut [u8]) -> Step
    requires { OtherName l × (0 < length rest.now) × (name_byte (get_or rest.now 0 0) ≡ true) }
    ensures { (0 < result.taken) × (result.taken ≤ length rest.now)
        × ((name : List ℕ) → length name ≤ 64 → fed name (feeding 0 (at l text.old)) rest.now
        ≡ fed name (placed result.place text.new) (drop result.taken rest.now)) }
{
    let mut line = l;
    for (i, b) in rest.iter().enumerate() {
        if !is_name_byte(*b) {
            return collected(line, i);
        }
        line = collect_byte(line, text, *b);
    }
    collected(line, rest.len())
}

// A newline that no backslash takes away, and a comment behind it.
fn is_comment_next(held: u8, rest: &[u8]) -> bool
    ensures { result ≡ true → (held ≡ 0) × (get_or rest.now 0 0 ≡ 10) × (1 < length rest.now) × (get_or rest.now 1 0 ≡ 35) }
{
    held == 0 && rest.starts_with(b"\n#")
}

// A line that cannot have the name: its rest is passed over, and so is the start of a comment behind it.
fn pass_line(p: Place, rest: &[u8]) -> Step
    requires { p.line.stage ≡ 3 }
    ensures { (result.taken ≤ length rest.now)
        × ((name text : List ℕ) → fed name (placed p text) rest.now
        ≡ fed name (placed result.place text) (drop result.taken rest.now)) }
{
    let to = next_newline(rest);
    if to > 0 {
        let held = holds(rest[to - 1]);
        return Step {
            place: Place { held, ..p },
            taken: to,
        };
    }
    if is_comment_next(p.held, rest) {
        let line = LineState {
            stage: PASSED,
            ..LINE_START
        };
        return Step {
            place: Place { held: 0, line },
            taken: 2,
        };
    }
    Step { place: p, taken: 0 }
}

// What is left of a block: the rest of a line that cannot have the name is passed over, and the rest of a name that differs is collected; any
// other byte goes alone.
fn next_step(name: &[u8], p: Place, rest: &[u8], text: &mut [u8]) -> Step
    requires { (length name.now ≤ 64) × (0 < length rest.now) }
    ensures { (0 < result.taken) × (result.taken ≤ length rest.now)
        × (fed name.now (placed p text.old) rest.now
        ≡ fed name.now (placed result.place text.new) (drop result.taken rest.now)) }
{
    if p.line.stage == PASSED {
        let passed = pass_line(p, rest);
        if passed.taken > 0 {
            return passed;
        }
    }
    let b = rest[0];
    if is_collected_only(p, b) {
        return collect_name(p.line, rest, text);
    }
    Step {
        place: one_byte(name, p, text, b),
        taken: 1,
    }
}

#[tactic(auto, unfolding(spec::specs::Finder::fed))]
fn feed_block(name: &[u8], p: Place, block: &[u8], text: &mut [u8]) -> Place
    requires { length name.now ≤ 64 }
    ensures { placed result text.new ≡ fed name.now (placed p text.old) block.now }
{
    let mut q = p;
    let mut rest = block;
    while !rest.is_empty() {
        let Step { place, taken } = next_step(name, q, rest, text);
        q = place;
        rest = &rest[taken..];
    }
    q
}

// The first `size` bytes of a name, or all of them.
fn asked_part(name: &[u8], size: usize) -> &[u8]
    ensures { result.now ≡ take size name.now }
{
    name.get(..size).unwrap_or(name)
}

// The asked name is the first `size` bytes of `name`, or all of them.
pub fn feed_named(name: &[u8], size: usize, p: Place, block: &[u8], text: &mut [u8]) -> Place
    requires { length name.now ≤ 64 }
    ensures { placed result text.new ≡ fed (take size name.now) (placed p text.old) block.now }
{
    feed_block(asked_part(name, size), p, block, text)
}

#[tactic(auto, unfolding(spec::specs::Finder::finished))]
fn finish(name: &[u8], p: Place, text: &mut [u8]) -> LineState
    requires { length name.now ≤ 64 }
    ensures { at result text.new ≡ finished name.now (placed p text.old) }
{
    let Place { held, line } = p;
    if held == 0 {
        return end_line(name, line);
    }
    let released = joined_byte(name, line, text, b'\\');
    end_line(name, released)
}

pub fn finish_named(name: &[u8], size: usize, p: Place, text: &mut [u8]) -> LineState
    requires { length name.now ≤ 64 }
    ensures { at result text.new ≡ finished (take size name.now) (placed p text.old) }
{
    finish(asked_part(name, size), p, text)
}
