// Places behind which an asked name may stand, sixteen at a time: a name is measured first, and bytes are compared only of one that has
// the asked length.
#![tactic(auto)]

ghost use Rattle.std.specs.Prelude.{◌+◌, ◌≤◌, ◌<◌, true, false, ◌≡◌, ◌⊎◌, length};
ghost use Rattle.name_places.specs.Marks.{Separator, Alone, Ending, Stop, Stops, Spelled, Whole, Settled, AllSettled, Passed};
ghost use Rattle.name_places.specs.Marks.{mark_of, Marked, Measured};

use lines::is_name;

// The places of a part.
const PLACES: u8 = 16;

const PART: usize = PLACES as usize;

// The most bytes that are measured of a name: a longer one is not measured.
const MEASURED: u8 = 32;

const LONGEST: usize = MEASURED as usize;

// The bytes, beside those of the name, that a part is looked at with: its 16 places, the two before a name, and 32 to measure one.
const REACH: usize = 50;

// The mark of a place where a name may be cut: above the number of any place.
const CUT: u8 = 64;

// ---- where a name may have the asked length

// Whether a byte may follow a name: a newline, a colon, a bar, or the backslash of a pair. Each of the two tests is for a couple of them,
// half as many comparisons; the first also lets 26 and 42 through, which are rare.
pub fn is_stop(b: u8) -> bool
    ensures { result ≡ false → Stop b → ⊥ }
{
    ((b & 207) == b'\n') | ((b | 32) == b'|')
}

// Whether a name may stand between two bytes, behind the newline of no pair. A backslash may follow it, as the first byte of a pair. Here
// no other byte is let through: a name that another byte follows has another length.
pub fn is_between(before: u8, separator: u8, behind: u8) -> bool
    ensures fact { result ≡ false → Separator separator → Alone before separator → Stop behind → ⊥ }
    ensures separator { result ≡ true → Separator separator }
{
    ((separator == b'|') | ((separator == b'\n') & (before != b'\\')))
        & ((behind == b'\n') | (behind == b':') | (behind == b'\\') | (behind == b'|'))
}

// Whether the last of three bytes is a newline that vanishes among the names of its line: after a backslash, and no colon before that.
pub fn is_cut(earlier: u8, before: u8, newline: u8) -> bool
    ensures { result ≡ false → newline ≡ 10 → before ≡ 92 → (earlier ≡ 58 → ⊥) → ⊥ }
{
    (newline == b'\n') & (before == b'\\') & (earlier != b':')
}

// ---- which name has it, and may be the asked one

// The mark of a place.
fn mark_of(cut: bool, fits: bool, number: u8) -> u8
    ensures { result ≡ mark_of cut fits number }
{
    if cut {
        CUT
    } else if fits {
        number
    } else {
        0
    }
}

// The last and the first of 16 places where a name may have the asked length, as the highest of their marks.
#[derive(Clone, Copy)]
struct PlaceMarks {
    high: u8,
    low: u8,
}

fn mark_places(s: &[u8], at: usize, name: &[u8]) -> PlaceMarks
    requires { at + 18 + length name.now < length s.now }
    ensures { Marked s.now name.now at 16 result.high result.low }
{
    let size = name.len();
    let mut high = 0;
    let mut low = 0;
    for k in 0..PLACES {
        let i = at + k as usize;
        let fits = is_between(s[i + 1], s[i + 2], s[i + 3 + size]);
        let cut = is_cut(s[i], s[i + 1], s[i + 2]);
        high = high.max(mark_of(cut, fits, k + 1));
        low = low.max(mark_of(false, fits, PLACES - k));
    }
    PlaceMarks { high, low }
}

// Whether a byte ends a name. No `matches!`, here and in the tests above: tried, and a search takes 9% more instructions, since the bytes are
// then tested one by one.
fn is_ending(b: u8) -> bool
    ensures ending { result ≡ true → Ending b }
    ensures fact { result ≡ false → Ending b → ⊥ }
{
    (b == b'\n') | (b == b':') | (b == b'|')
}

// How many bytes a name has that stands at a place with no pair in it, up to 32.
fn measure(s: &[u8], at: usize) -> u8
    requires { at + 32 ≤ length s.now }
    ensures { Measured s.now at result }
{
    let mut far = 0;
    for k in 0..MEASURED {
        let ending = is_ending(s[at + k as usize]);
        far = far.max(mark_of(false, ending, MEASURED - k));
    }
    MEASURED - far
}

// Whether the name at a place may be the asked one. It is measured first: if it has another length, the separator before it stands for
// its bytes, and none of them is compared. So there is no branch, which would often be guessed wrongly. A backslash at the name's end, or
// behind it, may belong to a pair, and then its length is open.
fn is_like(s: &[u8], at: usize, name: &[u8]) -> bool
    requires name_nonzero { 0 < length name.now }
    requires at_nonzero { 0 < at }
    requires at_in_bounds { at + 32 ≤ length s.now }
    requires name_in_bounds { at + length name.now < length s.now }
    ensures { result ≡ false → Spelled s.now name.now at → Whole s.now at (at + length name.now) → ⊥ }
{
    let size = name.len();
    if size > LONGEST {
        return true;
    }
    let whole = size <= measure(s, at) as usize;
    let open = (s[at + size - 1] == b'\\') | (s[at + size] == b'\\');
    let sure = whole & !open;
    let first = if sure { at } else { at - 1 };
    let last = if sure { at + size - 1 } else { at - 1 };
    (whole & open) | ((s[first] == name[0]) & (s[last] == name[size - 1]))
}

// Whether one of the 16 places from `at` on may be a hit. Of those where a name may have the asked length, the last one is looked at: an
// earlier one is so near that this one's separator ends its name before, or all have to be looked at.
fn any_mark(s: &[u8], at: usize, name: &[u8]) -> bool
    requires name_nonzero { 0 < length name.now }
    requires name_in_bounds { at + 50 + length name.now ≤ length s.now }
    ensures { result ≡ false → AllSettled s.now name.now at (at + 16) }
{
    let marks = mark_places(s, at, name);
    let high = marks.high as usize;
    let low = marks.low as usize;
    if high == 0 {
        return false;
    }
    if high > PART || high + low > name.len() + 17 {
        return true;
    }
    is_like(s, at + high + 2, name)
}

// ---- hits

// Whether a name of `size` bytes may stand behind the separator before a place.
fn is_long(s: &[u8], at: usize, size: usize) -> bool
    requires { at ≤ length s.now }
    ensures { result ≡ false → Stops s.now (at + size) → ⊥ }
{
    matches!(s[at..].get(size), None | Some(b'\n' | b':' | b'\\' | b'|'))
}

// Whether the line of a place has to be looked at: the name may be cut there, or it stands behind the separator.
fn is_hit(s: &[u8], at: usize, name: &[u8]) -> bool
    requires { at + 2 < length s.now }
    ensures { result ≡ false → Settled s.now name.now at }
{
    matches!(s[at + 2], b'\n' | b'|')
        && (is_cut(s[at], s[at + 1], s[at + 2])
            || (is_long(s, at + 3, name.len()) && is_name(s, at + 3, name)))
}

// The first hit from `at` on and before `stop`, or `stop`.
fn first_hit(s: &[u8], at: usize, stop: usize, name: &[u8]) -> usize
    requires at_le_stop { at ≤ stop }
    requires stop_in_bounds { stop + 2 ≤ length s.now }
    ensures upper_bound { result ≤ stop }
    ensures passed { Passed s.now name.now at result }
{
    for i in at..stop {
        if is_hit(s, i, name) {
            return i;
        }
    }
    stop
}

// The first hit of the 16 places from `at` on, or the place behind them. They are looked at where the database goes on far enough.
pub fn hit_in_part(s: &[u8], at: usize, name: &[u8]) -> usize
    ensures upper_bound { 0 < length name.now → at + 50 + length name.now ≤ length s.now
        → (result ≤ at + 16) × Passed s.now name.now at result }
    ensures value { (0 < length name.now → at + 50 + length name.now ≤ length s.now → ⊥) → result ≡ at }
{
    if name.is_empty() || s.len() < at {
        return at;
    }
    let left = s.len() - at;
    if left < REACH || left - REACH < name.len() {
        return at;
    }
    if any_mark(s, at, name) {
        return first_hit(s, at, at + PART, name);
    }
    at + PART
}

// The first hit from `at` on, or the last place but two: part by part, and place by place at the end. An empty name has no length to look
// for.
pub fn hit_by_parts(s: &[u8], at: usize, name: &[u8]) -> usize
    ensures passed { at + 2 ≤ length s.now → Passed s.now name.now at result }
    ensures value { (0 < length name.now → at + 2 ≤ length s.now → ⊥) → result ≡ at }
{
    let len = s.len();
    if name.is_empty() || len < 2 || len - 2 < at {
        return at;
    }
    let need = name.len() + REACH;
    let mut i = at;
    while need <= len - i {
        let found = hit_in_part(s, i, name);
        if found - i < PART {
            return found;
        }
        i = found;
    }
    first_hit(s, i, len - 2, name)
}
