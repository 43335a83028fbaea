// The links that the first two passes of the repair leave in a database: where their lines start, where their names stand, and which of
// them the third pass removes. Lists that are lent apart: `list_links` and `find_reasons` promise what becomes of each.
#![tactic(auto)]

ghost use Rattle.std.specs.Prelude.{◌≤◌, ◌≡◌, length};
ghost use Rattle.spec.specs.Lines.{line_at};
ghost use Rattle.spec.specs.Repair.{lines_of, left, line_link};
ghost use Rattle.link_targets.specs.Targets.{Targets};
ghost use Rattle.link_rings.specs.Rings.{Nexts};
ghost use Rattle.link_list.specs.Listing.{link_starts, link_names, names_at, FirstLinked, Linked, PutLink, LinksListed, Reasons};

use field_bounds::{AfterNames, after_names};
use fields::{Field, FieldRead, next_field};
use lines::{is_ignored, next_line};
use link_rings::judge_links;
use link_targets::find_targets;
use spec::MOST_LINES;
use stores::put;

// The first link of the fields of the first line of `s`, a part of the database that starts after a line's names: where its name stands.
fn first_link(s: &[u8]) -> Option<usize>
    ensures { FirstLinked s.now result }
{
    let mut i = 0;
    loop {
        let Some(
            Field {
                read,
                length: _,
                next,
            },
        ) = next_field(s, i)
        else {
            return None;
        };
        match read {
            FieldRead::Link(name) => return Some(name),
            _ => i = next,
        }
    }
}

// The link of the line at a place, if it has one after the second pass: by the part of the database that starts after its names.
fn line_link(db: &[u8], at: usize) -> Option<usize>
    ensures { Linked db.now (line_link (line_at db.now at)) result }
{
    if is_ignored(db, at) {
        return None;
    }
    let Some(AfterNames { fields, names: _ }) = after_names(db, at) else {
        return None;
    };
    match first_link(&db[fields..]) {
        Some(name) => Some(fields + name),
        None => None,
    }
}

// Stores a link of the line at a place, and answers how many there are then. The lists and their count stay three arguments: `list_links`,
// which is public, is lent the lists apart, and room of a fixed size has its count beside it.
fn put_link(
    link: Option<usize>,
    at: usize,
    ats: &mut [usize],
    names: &mut [usize],
    n: usize,
) -> usize
    requires { n ≤ 4096 }
    ensures { PutLink link at ats.old names.old n ats.new names.new result }
{
    let Some(name) = link else {
        return n;
    };
    put(ats, n, at);
    put(names, n, name);
    n + 1
}

// Lists the links of a database, and answers how many there are; nothing if it has too many lines.
pub fn list_links(db: &[u8], ats: &mut [usize], names: &mut [usize]) -> Option<usize>
    requires ats_len { length ats.old ≡ 4096 }
    requires names_len { length names.old ≡ 4096 }
    ensures { LinksListed db.now ats.old names.old ats.new names.new result }
{
    let mut at = 0;
    let mut lines = 0;
    let mut n = 0;
    loop {
        lines += usize::from(!is_ignored(db, at));
        if lines > MOST_LINES {
            return None;
        }
        n = put_link(line_link(db, at), at, ats, names, n);
        match next_line(db, at) {
            Some(next) => at = next,
            None => return Some(n),
        }
    }
}

// Finds the reasons of the links that are listed, by their targets: by number, as `reason_at` and the records have them, and 0 where a link
// stays. `names` is lent on as room to work in once the targets are found.
pub fn find_reasons(
    db: &[u8],
    ats: &[usize],
    names: &mut [usize],
    tos: &mut [usize],
    reasons: &mut [u8],
)
    requires db_len_bound { length db.now ≤ 1048576 }
    requires ats_value { ats.now ≡ link_starts (left (lines_of db.now)) }
    requires names_value { names_at db.now names.old ≡ link_names (left (lines_of db.now)) }
    requires names_len { length names.old ≡ length ats.now }
    requires tos_len { length tos.old ≡ length ats.now }
    requires reasons_len { length reasons.old ≡ length ats.now }
    ensures { Reasons db.now ats.now reasons.new
        × Targets db.now names.old tos.new (length names.old)
        × Nexts ats.now tos.new names.new (length ats.now) }
{
    find_targets(db, names, tos);
    judge_links(ats, tos, names, reasons);
}
