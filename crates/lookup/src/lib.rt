// The lookup: which field of a chain answers for an id and a kind.
#![tactic(auto)]

ghost use Rattle.std.specs.Prelude.{◌≡◌, [], ◌∷◌};
ghost use Rattle.spec.specs.Lines.{line_at};
ghost use Rattle.spec.specs.Files.{files, contents};
ghost use Rattle.spec.specs.Fields.{split, kind_number};
ghost use Rattle.spec.specs.Chain.{joined_fields};
ghost use Rattle.field_bounds.specs.Answers.{field_at};
ghost use Rattle.chain.specs.Answers.{lines_of};
ghost use Rattle.lookup.specs.Answers.{has_name, has_kind, Matched, Scanned, LookedUp};

use chain::{Chain, MOST_DESCRIPTIONS};
use field_bounds::{AfterNames, Bounds, after_names, field_byte, next_bounds};
use fields::{Field, FieldRead, next_field};
use files::file;
use spec::{Kind, Location};

// What a field with the asked name is to a question: it is passed over, it is a cancel, or it answers.
#[derive(Clone, Copy)]
enum Match {
    Passes,
    Cancels,
    Answers,
}

// What the fields of one line say: the lookup goes on, a cancel ends it, or a field answers, and is read so. No Option or Result: of the three
// outcomes none is a failure.
#[derive(Clone, Copy)]
enum LineHit {
    Open,
    Cancelled,
    Answered(FieldRead),
}

// Whether the field at a place starts with two bytes. No plainer with `?` or one pattern: the second byte is read only if the first fits.
fn has_name(s: &[u8], at: usize, a: u8, b: u8) -> bool
    ensures { result ≡ has_name (a ∷ b ∷ []) (field_at s.now at) }
{
    let Some((x, i)) = field_byte(s, at) else {
        return false;
    };
    if a != x {
        return false;
    }
    let Some((y, _)) = field_byte(s, i) else {
        return false;
    };
    b == y
}

// A field that starts with the asked name, for a question about a kind.
#[tactic(auto, unfolding(spec::specs::Fields::kind_number))]
fn match_read(read: FieldRead, kind: Kind) -> Match
    ensures { Matched (has_kind 0 read) (has_kind (kind_number kind) read) result }
{
    let asked = match read {
        FieldRead::Cancel(_, _) => return Match::Cancels,
        FieldRead::Flag(_, _) => matches!(kind, Kind::Flag),
        FieldRead::Number(_, _, _) => matches!(kind, Kind::Number),
        FieldRead::String(_, _, _, _) => matches!(kind, Kind::String),
        FieldRead::Malformed | FieldRead::Ignored | FieldRead::Link(_) => false,
    };
    if asked {
        return Match::Answers;
    }
    Match::Passes
}

// Over the fields of the part of the database that starts after a line's names. Only a field that starts with the asked name is read.
fn scan_fields(s: &[u8], a: u8, b: u8, kind: Kind) -> LineHit
    ensures { Scanned (a ∷ b ∷ []) (kind_number kind) (split (line_at s.now 0)) s.now result }
{
    let mut at = 0;
    loop {
        if !has_name(s, at, a, b) {
            let Some(Bounds { next, .. }) = next_bounds(s, at) else {
                return LineHit::Open;
            };
            at = next;
            continue;
        }
        let Some(Field { read, next, .. }) = next_field(s, at) else {
            return LineHit::Open;
        };
        match match_read(read, kind) {
            Match::Cancels => return LineHit::Cancelled,
            Match::Answers => return LineHit::Answered(read),
            Match::Passes => at = next,
        }
    }
}

// "The first field of that name and kind, unless a cancel of that name stands earlier": the place of a file where the fields of its line
// start, and what it is read as in the part of the file from there on. A chain has no more lines than its array, whatever its count is.
pub fn look_up(
    db: &[u8],
    ends: &[usize],
    c: Chain,
    a: u8,
    b: u8,
    kind: Kind,
) -> Option<(Location, FieldRead)>
    ensures { LookedUp (a ∷ b ∷ []) (kind_number kind) (joined_fields (contents (files db.now ends.now)) 0 (lines_of c))
        (contents (files db.now ends.now)) result }
{
    let n = c.count.min(MOST_DESCRIPTIONS);
    for p in &c.lines[..n] {
        let k = p.file;
        let part = file(db, ends, k);
        let Some(AfterNames { fields, .. }) = after_names(part, p.at) else {
            continue;
        };
        match scan_fields(&part[fields..], a, b, kind) {
            LineHit::Open => {}
            LineHit::Cancelled => return None,
            LineHit::Answered(read) => return Some((
                Location {
                    file: k,
                    at: fields,
                },
                read,
            )),
        }
    }
    None
}
