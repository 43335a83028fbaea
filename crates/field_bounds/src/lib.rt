// The bytes of a field: where it ends, where the next one starts, and where those of a line start. A place is an index of the database,
// or of a part of it.
#![tactic(auto)]

ghost use Rattle.std.specs.Prelude.{◌≡◌, length};
ghost use Rattle.std.proofs.lemmas.List.Edits.{sets};
ghost use Rattle.field_bounds.specs.Answers.{field_at, FieldStep, ColonFound, Bounded, NamesPassed};

use lines::peek;
use stores::put_after;

// A field: its joined bytes, and the place behind it: behind its colon, or the end of `s` for a last one.
#[derive(Clone, Copy)]
pub struct Bounds {
    pub length: usize,
    pub next: usize,
}

// Where the fields of a line start, and how many bytes its names have.
#[derive(Clone, Copy)]
pub struct AfterNames {
    pub fields: usize,
    pub names: usize,
}

// How far the field at a place reaches: its length, and the place after the colon that ends it, if the line does not end first.
#[derive(Clone, Copy)]
struct Extent {
    length: usize,
    after: Option<usize>,
}

// The first byte of the field at a place: it ends at a colon, or with the line.
#[tactic(auto, using(crate::proofs::FieldBytes::field_ends, crate::proofs::FieldBytes::field_over))]
pub fn field_byte(s: &[u8], at: usize) -> Option<(u8, usize)>
    ensures { FieldStep s.now at result }
{
    let (b, n) = peek(s, at)?;
    match b {
        b'\n' | b':' => None,
        _ => Some((b, n)),
    }
}

// The next colon of the line at a place.
fn find_colon(s: &[u8], at: usize) -> Extent
    ensures { ColonFound s.now at result }
{
    let mut i = at;
    let mut length = 0;
    loop {
        match peek(s, i) {
            Some((b, next)) => match b {
                b'\n' => return Extent {
                    length,
                    after: None,
                },
                b':' => return Extent {
                    length,
                    after: Some(next),
                },
                _ => {
                    length += 1;
                    i = next;
                }
            },
            None => return Extent {
                length,
                after: None,
            },
        }
    }
}

// "Each ends at a colon, always, and text after the last colon is a field unless empty."
pub fn next_bounds(s: &[u8], at: usize) -> Option<Bounds>
    ensures { Bounded s.now at result }
{
    let colon = find_colon(s, at);
    match colon.after {
        Some(next) => Some(Bounds {
            length: colon.length,
            next,
        }),
        None if colon.length == 0 => None,
        None => Some(Bounds {
            length: colon.length,
            next: s.len(),
        }),
    }
}

// "The fields are read from the byte after the first colon on."
pub fn after_names(db: &[u8], at: usize) -> Option<AfterNames>
    ensures { NamesPassed db.now at result }
{
    let colon = find_colon(db, at);
    let fields = colon.after?;
    Some(AfterNames {
        fields,
        names: colon.length,
    })
}

// Copies the text of the field at a place, joined and as written, to `out` from `to` on, and tells its length. What has no room is not
// stored.
pub fn copy_field(s: &[u8], at: usize, out: &mut [u8], to: usize) -> usize
    ensures { (result ≡ length (field_at s.now at)) × (out.new ≡ sets out.old to (field_at s.now at)) }
{
    let mut i = at;
    let mut k = 0;
    loop {
        match field_byte(s, i) {
            Some((b, n)) => {
                put_after(out, to, k, b);
                k += 1;
                i = n;
            }
            None => return k,
        }
    }
}
