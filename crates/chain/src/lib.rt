// The walk from a name along its links, over several files.
#![tactic(auto)]

ghost use Rattle.std.specs.Prelude.{◌≡◌, ◌+◌, ◌≤◌, ◌<◌, length, set, eqb};
ghost use Rattle.spec.specs.Choice.{both};
ghost use Rattle.spec.specs.Files.{files, contents, find_from};
ghost use Rattle.spec.specs.Chain.{visited};
ghost use Rattle.chain.specs.Answers.{lines_of, Walked};
ghost use Rattle.field_bounds.specs.Answers.{field_at};

use descriptions::judge_line;
use field_bounds::copy_field;
use files::{file, find_from};
use spec::{Location, Refusal};

// A chain of more descriptions is refused with 8.
pub const MOST_DESCRIPTIONS: usize = 32;

// The lines of a chain, in order: the first `count` of `lines`. An array with its count, in fixed memory: a Vec needs the heap.
#[derive(Clone, Copy)]
pub struct Chain {
    pub lines: [Location; MOST_DESCRIPTIONS],
    pub count: usize,
}

// "A line is now known by file and place." By `any`, which has that test in its closure: there the must-fail edit cycle_by_place_alone can
// change it and nothing else.
fn is_visited(c: Chain, p: Location) -> bool
    requires { c.count ≤ 32 }
    ensures { result ≡ visited p (lines_of c) }
{
    c.lines[..c.count].iter().any(|q| *q == p)
}

fn with_line(c: Chain, p: Location) -> Chain
    requires { c.count < 32 }
    ensures { (result.lines ≡ set c.lines c.count p) × (result.count ≡ c.count + 1) }
{
    let mut d = c;
    let n = d.count;
    d.lines[n] = p;
    d.count = n + 1;
    d
}

// Finds the line of the name that a link at a place of a file has, from the file k onwards. A name has at most 64 bytes; its own bytes may be
// cut by joined pairs, so it is copied first.
fn find_linked(db: &[u8], ends: &[usize], k: u8, part: &[u8], at: usize) -> Option<Location>
    requires { (length ends.now ≤ 8) × (length (field_at part.now at) ≤ 64) }
    ensures { result ≡ find_from (contents (files db.now ends.now)) k (field_at part.now at) }
{
    let mut name = [0u8; 64];
    let n = copy_field(part, at, &mut name, 0);
    find_from(db, ends, k, &name[..n])
}

// At each step: the line that was found (4 for the first, else 5), then 7, then the 33rd (8), then 6, then the size (8), then the next link.
pub fn follow_links(db: &[u8], ends: &[usize], name: &[u8]) -> Result<Chain, Refusal>
    requires { length ends.now ≤ 8 }
    ensures { Walked (contents (files db.now ends.now)) name.now result }
{
    let mut c = Chain {
        lines: [Location { file: 0, at: 0 }; MOST_DESCRIPTIONS],
        count: 0,
    };
    let mut left: usize = 16384;
    let mut missing = Refusal::UnknownName;
    let mut found = find_from(db, ends, 0, name);
    loop {
        let Some(p) = found else {
            return Err(missing);
        };
        if is_visited(c, p) {
            return Err(Refusal::Cycle);
        }
        if c.count >= MOST_DESCRIPTIONS {
            return Err(Refusal::ChainTooLarge);
        }
        let k = p.file;
        let part = file(db, ends, k);
        let Some(judged) = judge_line(part, p.at) else {
            return Err(Refusal::Malformed);
        };
        if judged.size > left {
            return Err(Refusal::ChainTooLarge);
        }
        c = with_line(c, p);
        let Some(link) = judged.link else {
            return Ok(c);
        };
        left -= judged.size;
        missing = Refusal::LostLink;
        found = find_linked(db, ends, k, part, link);
    }
}
