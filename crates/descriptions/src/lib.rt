// A description judged by its fields: what a line says, and its size.
#![tactic(auto)]

ghost use Rattle.std.specs.Prelude.{◌+◌, ◌^◌, ◌<◌, ◌≡◌};
ghost use Rattle.spec.specs.Lines.{line_at};
ghost use Rattle.spec.specs.Fields.{split, size as size_of};
ghost use Rattle.descriptions.specs.Judgement.{IgnoredSize, linked, FieldsJudged, LineJudged};

use field_bounds::after_names;
use fields::{Field, FieldRead, next_field};

// What a line that is not malformed says: its size, and the place of the name that it links to, if it does not end the chain.
#[derive(Clone, Copy)]
pub struct Judged {
    pub size: usize,
    pub link: Option<usize>,
}

// The size of the fields from a place on, if all are ignored.
fn ignored_size(s: &[u8], at: usize) -> Option<usize>
    ensures { IgnoredSize s.now at result }
{
    let mut i = at;
    let mut size = 0;
    loop {
        let Some(Field { read, length, next }) = next_field(s, i) else {
            return Some(size);
        };
        match read {
            FieldRead::Ignored => {
                size += length + 1;
                i = next;
            }
            _ => return None,
        }
    }
}

// The verdict on a line with a link, whose fields up to it have that size: after it "only ignored fields may stand".
fn judge_after_link(s: &[u8], at: usize, name: usize, size: usize) -> Option<Judged>
    requires { size + size_of (split (line_at s.now at)) < 2 ^ 64 }
    ensures { result ≡ linked (split (line_at s.now at)) name size }
{
    let rest = ignored_size(s, at)?;
    Some(Judged {
        size: size + rest,
        link: Some(name),
    })
}

// The verdict on the fields of the first line of `s`, a part of the database that starts after a line's names; none on malformed ones.
pub fn judge_fields(s: &[u8]) -> Option<Judged>
    ensures { FieldsJudged s.now result }
{
    let mut at = 0;
    let mut size = 0;
    loop {
        let Some(Field { read, length, next }) = next_field(s, at) else {
            return Some(Judged { size, link: None });
        };
        size += length + 1;
        match read {
            FieldRead::Malformed => return None,
            FieldRead::Link(name) => return judge_after_link(s, next, name, size),
            _ => at = next,
        }
    }
}

// The verdict on the line at a place, by the part of the database that starts after its names: "a line without a colon" is malformed; "a
// line's size is its names plus 1, plus each field's length plus 1".
pub fn judge_line(db: &[u8], at: usize) -> Option<Judged>
    ensures { LineJudged db.now at result }
{
    let start = after_names(db, at)?;
    let part = judge_fields(&db[start.fields..])?;
    let size = start.names + 1 + part.size;
    match part.link {
        None => Some(Judged { size, link: None }),
        Some(name) => Some(Judged {
            size,
            link: Some(start.fields + name),
        }),
    }
}
