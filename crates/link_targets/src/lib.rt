// Where the links of a database lead: each wanted name is settled at the first line that has it, in one pass over all names of the lines
// that are left, for some hundred wanted names at a time. The lists of places are lent apart, as in `link_list`.
#![tactic(auto)]

ghost use Rattle.std.specs.Prelude.{◌≤◌, ◌<◌, ◌≡◌, eqb, length};
ghost use Rattle.std.proofs.lemmas.List.Edits.{sets};
ghost use Rattle.spec.specs.Lines.{line_at, find};
ghost use Rattle.spec.specs.Repair.{left, lines_of};
ghost use Rattle.name_table.specs.Table.{Table, AtMost, slot_of};
ghost use Rattle.link_targets.specs.Props.{table-prop};
ghost use Rattle.link_targets.specs.Targets.{name_at, place_of, Targets, ShortNames, any_numbered, line_names, numbered, Settles, Unsettled, FirstLines};

use field_bounds::{AfterNames, after_names};
use lines::{is_ignored, next_line, next_name, peek};
use name_table::{NAME_BYTES, list_names, slot_of};
use spec::MOST_BYTES;
use stores::put_after;

// The place of a line that is not found: past every database. By number: `Targets` and `FirstLines` have it so.
const NOWHERE: usize = MOST_BYTES + 1;

// So many names are looked for in one pass, and the room that they have in the table.
const BATCH: usize = 512;

const TABLE_BYTES: usize = BATCH * NAME_BYTES;

// The names that are looked for in a pass: a table, and how many of them its list has.
#[derive(Clone, Copy)]
struct Names<'a> {
    bytes: &'a [u8],
    lens: &'a [usize],
    order: &'a [usize],
    count: usize,
    ghost table: { Table bytes.now lens.now order.now } by { table-prop bytes.now lens.now order.now },
    ghost few: { count ≤ length order.now },
}

// Copies the name at a place to `out` from `to` on, and tells its length. What has no room is not stored.
fn copy_name(db: &[u8], at: usize, out: &mut [u8], to: usize) -> usize
    ensures { (result ≡ length (name_at db.now at)) × (out.new ≡ sets out.old to (name_at db.now at)) }
{
    let mut i = at;
    let mut k = 0;
    loop {
        match peek(db, i) {
            Some((b, n)) => match b {
                b'\n' | b':' | b'|' => return k,
                _ => {
                    put_after(out, to, k, b);
                    k += 1;
                    i = n;
                }
            },
            None => return k,
        }
    }
}

// Settles the number j at a place, unless it is settled.
fn settle(firsts: &mut [usize], j: usize, at: usize)
    ensures { Settles at (eqb j) firsts.old firsts.new }
{
    if j < firsts.len() && firsts[j] == NOWHERE {
        firsts[j] = at;
    }
}

// The number of the name at a place, or a number past all names.
fn number_of(db: &[u8], at: usize, wanted: &Names<'_>) -> usize
    ensures { result ≡ slot_of wanted.now.bytes.now wanted.now.lens.now wanted.now.order.now wanted.now.count
        (name_at db.now at) }
{
    let mut name = [0u8; NAME_BYTES];
    let n = copy_name(db, at, &mut name, 0);
    if n > NAME_BYTES {
        return wanted.lens.len();
    }
    slot_of(
        wanted.bytes,
        wanted.lens,
        wanted.order,
        wanted.count,
        &name[..n],
    )
}

// Settles all names of the line at a place.
fn settle_names(db: &[u8], at: usize, wanted: &Names<'_>, firsts: &mut [usize])
    ensures { Settles at (any_numbered (slot_of wanted.now.bytes.now wanted.now.lens.now wanted.now.order.now wanted.now.count)
        (line_names (line_at db.now at))) firsts.old firsts.new }
{
    let mut p = at;
    loop {
        settle(firsts, number_of(db, p, wanted), at);
        match next_name(db, p) {
            Some(n) => p = n,
            None => return,
        }
    }
}

// Settles the names of the line at a place, if it is left and not ignored.
fn settle_line(db: &[u8], at: usize, wanted: &Names<'_>, firsts: &mut [usize])
    ensures { Settles at (numbered (slot_of wanted.now.bytes.now wanted.now.lens.now wanted.now.order.now wanted.now.count)
        (line_at db.now at)) firsts.old firsts.new }
{
    if is_ignored(db, at) {
        return;
    }
    let Some(
        AfterNames {
            fields: _,
            names: _,
        },
    ) = after_names(db, at)
    else {
        return;
    };
    settle_names(db, at, wanted, firsts);
}

// Settles all names of all lines that are left.
fn settle_lines(db: &[u8], wanted: &Names<'_>, firsts: &mut [usize])
    requires db_len_bound { length db.now ≤ 1048576 }
    requires unsettled { Unsettled firsts.old }
    ensures { FirstLines db.now (slot_of wanted.now.bytes.now wanted.now.lens.now wanted.now.order.now wanted.now.count) firsts.new }
{
    let mut at = 0;
    loop {
        settle_line(db, at, wanted, firsts);
        match next_line(db, at) {
            Some(n) => at = n,
            None => return,
        }
    }
}

// The target of the name at a place, by a pass of its own: with a table of this name alone.
fn find_alone(db: &[u8], at: usize) -> usize
    requires db_len_bound { length db.now ≤ 1048576 }
    requires at_len_bound { length (name_at db.now at) ≤ 64 }
    ensures { result ≡ place_of (find (name_at db.now at) (left (lines_of db.now))) }
{
    let mut bytes = [0u8; NAME_BYTES];
    let n = copy_name(db, at, &mut bytes, 0);
    let wanted = Names {
        bytes: &bytes,
        lens: &[n],
        order: &[0],
        count: 1,
    };
    let mut firsts = [NOWHERE];
    settle_lines(db, &wanted, &mut firsts);
    firsts[0]
}

// The target of the name at a place, by the first lines of the names of a table.
fn target_of(db: &[u8], at: usize, wanted: &Names<'_>, firsts: &[usize]) -> usize
    requires db_len_bound { length db.now ≤ 1048576 }
    requires at_len_bound { length (name_at db.now at) ≤ 64 }
    requires firsts_len { length firsts.now ≡ length wanted.now.lens.now }
    requires first_lines { FirstLines db.now (slot_of wanted.now.bytes.now wanted.now.lens.now wanted.now.order.now wanted.now.count) firsts.now }
    ensures { result ≡ place_of (find (name_at db.now at) (left (lines_of db.now))) }
{
    match firsts.get(number_of(db, at, wanted)) {
        Some(first) => *first,
        None => find_alone(db, at),
    }
}

// Copies names into a table, as many as it has room for.
fn copy_names(db: &[u8], names: &[usize], bytes: &mut [u8], lens: &mut [usize])
    requires lens_len_bound { length lens.old ≤ 4096 }
    requires at_most { AtMost 64 lens.old }
    ensures { AtMost 64 lens.new }
{
    for (j, len) in lens.iter_mut().enumerate() {
        let Some(at) = names.get(j) else {
            return;
        };
        let n = copy_name(db, *at, bytes, j * NAME_BYTES);
        if n > NAME_BYTES {
            return;
        }
        *len = n;
    }
}

// Stores the targets of the names from `from` on and before `to`.
fn store_targets(
    db: &[u8],
    names: &[usize],
    from: usize,
    to: usize,
    wanted: &Names<'_>,
    firsts: &[usize],
    tos: &mut [usize],
)
    requires db_len_bound { length db.now ≤ 1048576 }
    requires short_names { ShortNames db.now names.now }
    requires firsts_len { length firsts.now ≡ length wanted.now.lens.now }
    requires first_lines { FirstLines db.now (slot_of wanted.now.bytes.now wanted.now.lens.now wanted.now.order.now wanted.now.count) firsts.now }
    requires from_le_to { from ≤ to }
    requires to_in_bounds { to ≤ length names.now }
    requires tos_len { length tos.old ≡ length names.now }
    requires targets { Targets db.now names.now tos.old from }
    ensures { Targets db.now names.now tos.new to }
{
    for k in from..to {
        tos[k] = target_of(db, names[k], wanted, firsts);
    }
}

// Finds the targets of the names from `from` on, as many as a table has room for, and answers how many are found then.
fn find_some(db: &[u8], names: &[usize], from: usize, tos: &mut [usize]) -> usize
    requires db_len_bound { length db.now ≤ 1048576 }
    requires short_names { ShortNames db.now names.now }
    requires from_in_bounds { from < length names.now }
    requires tos_len { length tos.old ≡ length names.now }
    requires targets { Targets db.now names.now tos.old from }
    ensures { (from < result) × (result ≤ length names.now) × Targets db.now names.now tos.new result }
{
    let mut bytes = [0u8; TABLE_BYTES];
    let mut lens = [0usize; BATCH];
    let mut order = [0usize; BATCH];
    copy_names(db, &names[from..], &mut bytes, &mut lens);
    let count = list_names(&bytes, &lens, &mut order);
    let wanted = Names {
        bytes: &bytes,
        lens: &lens,
        order: &order,
        count,
    };
    let mut firsts = [NOWHERE; BATCH];
    settle_lines(db, &wanted, &mut firsts);
    let to = from + BATCH.min(names.len() - from);
    store_targets(db, names, from, to, &wanted, &firsts, tos);
    to
}

// Finds the targets of all names.
pub fn find_targets(db: &[u8], names: &[usize], tos: &mut [usize])
    requires db_len_bound { length db.now ≤ 1048576 }
    requires short_names { ShortNames db.now names.now }
    requires tos_len { length tos.old ≡ length names.now }
    ensures { Targets db.now names.now tos.new (length names.now) }
{
    let mut from = 0;
    while from < names.len() {
        from = find_some(db, names, from, tos);
    }
}
