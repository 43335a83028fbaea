// Scans a termcap database for an asked name, in four passes. Each looks only at what the pass before it left.
//
// | Pass | Looks at | Lists | Proved by |
// |---|---|---|---|
// | 1 | all blocks of 48 places: each byte and the next one | blocks in which a plain name can start | `list_for` |
// | 2 | the parts of these, of 16 places: the bytes before and behind a name | parts where a name can have the asked length | `list_parts` |
// | 3 | these parts: the length of the last such name, its first and last byte | nothing | `any_mark` of `name_places` |
// | 4 | each place of a part that is left: the whole name | nothing: it answers the first hit | `first_hit` of `name_places` |
//
// For a name that is not plain, pass 1 lists all blocks. Without lists, and near the end of the database, `hit_by_parts` takes all parts
// through the passes 3 and 4.
#![tactic(auto)]

ghost use Rattle.std.specs.Prelude.{◌≡◌, ℕ, ◌+◌, ◌*◌, ◌<◌, ◌≤◌, true, false, length, slice_set};
ghost use Rattle.name_places.specs.Marks.{AllSettled, Passed};
ghost use Rattle.name_scan.specs.Blocks.{Start, Startless, Plain, Listed, counted, StartsListed, BlocksListed};

use name_places::{hit_by_parts, hit_in_part, is_between, is_cut, is_stop};

// The places of a part.
const PART: usize = 16;

// The places of a block: three parts.
const BLOCK: usize = 48;

// The most blocks that are listed at a time.
pub const BLOCKS: usize = 512;

// The parts of so many blocks.
pub const PARTS: usize = 1536;

// How many blocks are listed at first.
const FIRST_BLOCKS: usize = 4;

// The bytes, beside those of the name, that a block is looked at with: its 48 places, the two before a name, and 32 to measure one.
const REACH: usize = 82;

// The name that is asked for, and whether it is plain: of the bytes 36..127 only. It is passed by value: tried by reference, and a search
// takes 6% more instructions.
#[derive(Clone, Copy)]
struct Asked<'a> {
    name: &'a [u8],
    plain: bool,
    ghost bytes: { plain ≡ true → Plain name.now },
}

// ---- where a name can start

// Whether a name is plain: bytes 36..127 only.
fn is_plain(name: &[u8]) -> bool
    ensures { result ≡ true → Plain name.now }
{
    name.iter().all(|b| matches!(*b, 36..=127))
}

// The level of a byte: 127 for a newline, 117 for a bar. Only 0..7 and 125, which are rare, have levels between these.
fn level(b: u8) -> u8
    ensures value { b ≡ 10 → result ≡ 127 }
    ensures value_2 { b ≡ 124 → result ≡ 117 }
{
    (b ^ 66).wrapping_add(55)
}

// Whether a byte has a level between those of a bar and of a newline: one comparison for both of them. It is a function of its own, since
// together with the sum it would be compiled to two.
fn is_high(level: u8) -> bool
    ensures { result ≡ false → 117 ≤ level → level < 128 → ⊥ }
{
    matches!(level, 117..=127)
}

// Whether a plain name may stand behind a byte, or be cut before the next one.
fn is_start(b: u8, next: u8) -> bool
    ensures { result ≡ false → Start b next → ⊥ }
{
    is_high(level(b)) & matches!(next, 36..=127)
}

// Whether there is a start at one of the 48 places from `at` on. There is no branch in it, so that it compiles to comparisons of 16 bytes
// at once. Nor does the loop go from `at` on, here and below: tried, and a search takes 27% more instructions. The three tests of places
// each have a loop: with one loop over a closure, each closure would promise of a place what `ensures` does of all: no plainer.
fn any_start(s: &[u8], at: usize) -> bool
    requires { at + 48 < length s.now }
    ensures { result ≡ false → Startless s.now at (at + 48) }
{
    let mut hit = false;
    for k in 0..BLOCK {
        hit |= is_start(s[at + k], s[at + k + 1]);
    }
    hit
}

// Lists a number behind the `count` listed ones, if it is to be kept; answers how many there are then. No branch is left in it: what is
// kept cannot be foreseen, so a branch would often be guessed wrongly. A list and its count stay apart, here and below: the list is lent
// room of a fixed size.
fn note(keep: bool, number: usize, list: &mut [u16], count: usize) -> usize
    requires number_bound { number < 65536 }
    requires count_in_bounds { count < length list.old }
    ensures value { result ≡ counted keep count }
    ensures list_after { list.new ≡ slice_set list.old count number }
{
    list[count] = number as u16;
    count + keep as usize
}

// Lists those of four blocks that have a start. All four are looked at before one is listed: the next look does not wait for a store
// whose place is not known yet.
fn list_four(s: &[u8], at: usize, k: usize, list: &mut [u16], count: usize) -> usize
    requires k_bound { k + 4 ≤ 512 }
    requires k_in_bounds { at + k * 48 + 192 < length s.now }
    requires list_len { length list.old ≡ 512 }
    requires starts_listed { StartsListed s.now at list.old count k }
    ensures { StartsListed s.now at list.new result (k + 4) }
{
    let i = at + k * BLOCK;
    let a = any_start(s, i);
    let b = any_start(s, i + BLOCK);
    let c = any_start(s, i + 2 * BLOCK);
    let d = any_start(s, i + 3 * BLOCK);
    let one = note(a, k, list, count);
    let two = note(b, k + 1, list, one);
    let three = note(c, k + 2, list, two);
    note(d, k + 3, list, three)
}

// Lists those of the blocks from `k` on and before `n` that have a start.
fn list_rest(s: &[u8], at: usize, k: usize, n: usize, list: &mut [u16], count: usize) -> usize
    requires k_le_n { k ≤ n }
    requires n_bound { n ≤ 512 }
    requires n_in_bounds { at + n * 48 < length s.now }
    requires list_len { length list.old ≡ 512 }
    requires starts_listed { StartsListed s.now at list.old count k }
    ensures { StartsListed s.now at list.new result n }
{
    let mut listed = count;
    for i in k..n {
        let start = any_start(s, at + i * BLOCK);
        listed = note(start, i, list, listed);
    }
    listed
}

// Lists the blocks with a start, of the `n` from `at` on, and answers how many there are.
fn list_blocks(s: &[u8], at: usize, n: usize, list: &mut [u16]) -> usize
    requires n_bound { n ≤ 512 }
    requires n_in_bounds { at + n * 48 < length s.now }
    requires list_len { length list.old ≡ 512 }
    ensures { StartsListed s.now at list.new result n }
{
    let mut count = 0;
    let fours = n / 4;
    for j in 0..fours {
        count = list_four(s, at, j * 4, list, count);
    }
    list_rest(s, at, fours * 4, n, list, count)
}

// Lists all of `n` blocks.
fn list_all(n: usize, list: &mut [u16]) -> usize
    requires n_bound { n ≤ 512 }
    requires list_len { length list.old ≡ 512 }
    ensures { Listed (λ (j : ℕ). ⊥) list.new result n }
{
    for k in 0..n {
        list[k] = k as u16;
    }
    n
}

// Lists the blocks of 48 places from `at` on, of `n`, that may have a hit.
fn list_for(s: &[u8], at: usize, n: usize, asked: Asked, list: &mut [u16]) -> usize
    requires name_nonzero { 0 < length asked.name.now }
    requires n_in_bounds { at + n * 48 + 2 < length s.now }
    requires n_bound { n ≤ 512 }
    requires list_len { length list.old ≡ 512 }
    ensures { BlocksListed 48 s.now asked.entry.name.now at list.new result n }
{
    if asked.plain {
        list_blocks(s, at + 2, n, list)
    } else {
        list_all(n, list)
    }
}

// ---- where a name may have the asked length

// Whether one of the 16 places from `at` on may have a name of the asked length behind it, or be where one is cut. No branch is left in
// it either.
fn any_fit(s: &[u8], at: usize, name: &[u8]) -> bool
    requires { at + 18 + length name.now < length s.now }
    ensures { result ≡ false → AllSettled s.now name.now at (at + 16) }
{
    let size = name.len();
    let mut hit = false;
    for k in 0..PART {
        let i = at + k;
        let fits = is_between(s[i + 1], s[i + 2], s[i + 3 + size]);
        hit |= fits | is_cut(s[i], s[i + 1], s[i + 2]);
    }
    hit
}

// The same for a plain name, which is shorter: it stands only behind a start, and is cut only there, after a backslash.
fn any_plain_fit(s: &[u8], at: usize, name: &[u8]) -> bool
    requires name_nonzero { 0 < length name.now }
    requires name_in_bounds { at + 18 + length name.now < length s.now }
    requires plain { Plain name.now }
    ensures { result ≡ false → AllSettled s.now name.now at (at + 16) }
{
    let size = name.len();
    let mut hit = false;
    for k in 0..PART {
        let i = at + k;
        let start = is_start(s[i + 2], s[i + 3]);
        let ends = (s[i + 1] == b'\\') | is_stop(s[i + 3 + size]);
        hit |= start & ends;
    }
    hit
}

// One of the two tests.
fn any_fit_for(s: &[u8], at: usize, asked: Asked) -> bool
    requires name_nonzero { 0 < length asked.name.now }
    requires name_in_bounds { at + 18 + length asked.name.now < length s.now }
    ensures { result ≡ false → AllSettled s.now asked.entry.name.now at (at + 16) }
{
    if asked.plain {
        any_plain_fit(s, at, asked.name)
    } else {
        any_fit(s, at, asked.name)
    }
}

// Lists those of the three parts of a block, of 16 places each, where a name may have the asked length.
fn list_three(
    s: &[u8],
    at: usize,
    asked: Asked,
    block: usize,
    list: &mut [u16],
    count: usize,
) -> usize
    requires name_nonzero { 0 < length asked.name.now }
    requires name_in_bounds { at + block * 48 + 50 + length asked.name.now < length s.now }
    requires block_bound { block < 512 }
    requires list_len { length list.old ≡ 1536 }
    requires blocks_listed { BlocksListed 16 s.now asked.name.now at list.old count (block * 3) }
    ensures { BlocksListed 16 s.now asked.entry.name.now at list.new result (block * 3 + 3) }
{
    let i = at + block * BLOCK;
    let a = any_fit_for(s, i, asked);
    let b = any_fit_for(s, i + PART, asked);
    let c = any_fit_for(s, i + 2 * PART, asked);
    let k = block * 3;
    let one = note(a, k, list, count);
    let two = note(b, k + 1, list, one);
    note(c, k + 2, list, two)
}

// Lists the parts, of 16 places each, of the listed blocks where a name may have the asked length.
fn list_parts(
    s: &[u8],
    at: usize,
    n: usize,
    asked: Asked,
    blocks: &[u16],
    list: &mut [u16],
) -> usize
    requires name_nonzero { 0 < length asked.name.now }
    requires name_in_bounds { at + n * 48 + 2 + length asked.name.now < length s.now }
    requires n_bound { n ≤ 512 }
    requires list_len { length list.old ≡ 1536 }
    requires blocks_listed { BlocksListed 48 s.now asked.name.now at blocks.now (length blocks.now) n }
    ensures { BlocksListed 16 s.now asked.entry.name.now at list.new result (n * 3) }
{
    let mut count = 0;
    for block in blocks {
        count = list_three(s, at, asked, *block as usize, list, count);
    }
    count
}

// ---- hits

// The first hit of the `n` blocks from `at` on, or the place behind them; only the listed parts may have one.
fn hit_in_parts(s: &[u8], at: usize, n: usize, name: &[u8], parts: &[u16]) -> usize
    requires name_nonzero { 0 < length name.now }
    requires name_in_bounds { at + n * 48 + 34 + length name.now ≤ length s.now }
    requires n_bound { n ≤ 512 }
    requires blocks_listed { BlocksListed 16 s.now name.now at parts.now (length parts.now) (n * 3) }
    ensures upper_bound { result ≤ at + n * 48 }
    ensures passed { Passed s.now name.now at result }
{
    for part in parts {
        let i = at + *part as usize * PART;
        let found = hit_in_part(s, i, name);
        if found - i < PART {
            return found;
        }
    }
    at + n * BLOCK
}

// The first hit of the `n` blocks from `at` on, or the place behind them. Two lists: `next_hit`, which is public, is lent them apart.
fn hit_in_stretch(
    s: &[u8],
    at: usize,
    n: usize,
    asked: Asked,
    blocks: &mut [u16],
    parts: &mut [u16],
) -> usize
    requires name_nonzero { 0 < length asked.name.now }
    requires name_in_bounds { at + n * 48 + 34 + length asked.name.now ≤ length s.now }
    requires n_bound { n ≤ 512 }
    requires blocks_len { length blocks.old ≡ 512 }
    requires parts_len { length parts.old ≡ 1536 }
    ensures upper_bound { result ≤ at + n * 48 }
    ensures passed { Passed s.now asked.entry.name.now at result }
{
    let listed = list_for(s, at, n, asked, blocks);
    let count = list_parts(s, at, n, asked, &blocks[..listed], parts);
    hit_in_parts(s, at, n, asked.name, &parts[..count])
}

// The first hit from `at` on, or the last place but two: up to 512 blocks at a time, and after each time without a hit twice as many. So a
// near hit costs no more than its distance.
fn hit_by_stretches(
    s: &[u8],
    at: usize,
    name: &[u8],
    blocks: &mut [u16],
    parts: &mut [u16],
) -> usize
    requires name_nonzero { 0 < length name.now }
    requires at_in_bounds { at + 2 ≤ length s.now }
    requires blocks_len { length blocks.old ≡ 512 }
    requires parts_len { length parts.old ≡ 1536 }
    ensures { Passed s.now name.now at result }
{
    let len = s.len();
    let reach = name.len() + REACH;
    let asked = Asked {
        name,
        plain: is_plain(name),
    };
    let mut n = FIRST_BLOCKS;
    let mut i = at;
    while reach <= len - i {
        let m = n.min((len - i - reach) / BLOCK + 1);
        let found = hit_in_stretch(s, i, m, asked, blocks, parts);
        if found - i < m * BLOCK {
            return found;
        }
        n = BLOCKS.min(n * 2);
        i = found;
    }
    hit_by_parts(s, i, name)
}

// The first hit from `at` on, or the last place but two. An empty name has no length to look for. The lists are lent, so that they are
// not cleared for each hit. If they do not have BLOCKS and PARTS numbers, the scan does without: a short database needs none.
pub fn next_hit(s: &[u8], at: usize, name: &[u8], blocks: &mut [u16], parts: &mut [u16]) -> usize
    ensures passed { 0 < length name.now → at + 2 ≤ length s.now → Passed s.now name.now at result }
    ensures value { (0 < length name.now → at + 2 ≤ length s.now → ⊥) → result ≡ at }
{
    if name.is_empty() || s.len() < 2 || s.len() - 2 < at {
        at
    } else if blocks.len() == BLOCKS && parts.len() == PARTS {
        hit_by_stretches(s, at, name, blocks, parts)
    } else {
        hit_by_parts(s, at, name)
    }
}
