// Tables of capabilities: a byte for each name of two bytes 33..126, with a bit for a cancel and one for each kind. In a table of zeros
// nothing was met. Listing marks what was met; a batch marks what answers, and keeps its value.
#![tactic(auto)]

ghost use Rattle.std.specs.Prelude.{◌≡◌, ◌≤◌, ◌<◌, ◌+◌, ◌-◌, ◌*◌, true, false, eqb, MatchOption};
ghost use Rattle.spec.specs.Fields.{kind_number};
ghost use Rattle.capability_table.specs.Table.{has_entry, key_of, bit_of, with_bit, is_open, is_first, marked};
ghost use Rattle.capability_table.specs.Answers.{kept_marks, kept_values, kept_answer};

use spec::{Kind, Refusal};

// The bytes 33..126, of which a name has two.
const LOWEST: u8 = 33;

const HIGHEST: u8 = 126;

const NAME_BYTES: usize = 94;

pub const NAMES: usize = NAME_BYTES * NAME_BYTES;

// A value for each name and kind.
pub const VALUES: usize = 3 * NAMES;

// The number of a cancel, beside those of the kinds.
pub const CANCEL: u8 = 0;

// The place of a name, if the table has one for it and for the number of a kind.
#[tactic(auto, unfolding(crate::specs::Table::has_entry))]
fn place_of(a: u8, b: u8, kind: u8) -> Option<usize>
    ensures { MatchOption result (has_entry a b kind ≡ false)
        (λ at. (has_entry a b kind ≡ true) × (at ≡ key_of a b) × (at < 8836) × (kind ≤ 3)) }
{
    match (a, b, kind) {
        (LOWEST..=HIGHEST, LOWEST..=HIGHEST, CANCEL..=Kind::STRING) => {
            Some((a - LOWEST) as usize * NAME_BYTES + (b - LOWEST) as usize)
        }
        _ => None,
    }
}

// The bit of a kind's number in a byte of the table.
#[tactic(auto, using(crate::proofs::Entries::bit_shifted))]
fn has_bit(x: u8, kind: u8) -> bool
    requires { kind ≤ 3 }
    ensures { result ≡ eqb (bit_of kind x) 1 }
{
    x >> kind & 1 == 1
}

#[tactic(auto, using(crate::proofs::Entries::bit_set))]
fn with_bit(x: u8, kind: u8) -> u8
    requires { kind ≤ 3 }
    ensures { result ≡ with_bit kind x }
{
    x | 1 << kind
}

// Whether neither a cancel nor the kind is marked.
#[tactic(auto, unfolding(crate::specs::Table::is_open))]
fn is_open(x: u8, kind: u8) -> bool
    requires { kind ≤ 3 }
    ensures { result ≡ is_open kind x }
{
    !has_bit(x, CANCEL) && !has_bit(x, kind)
}

// Marks a capability, by its name and the number of its kind, as met. Whether it is the first: neither a cancel of its name nor a
// field of its name and kind was met before. The table has no place for another name or number: it is passed over as if nothing was met.
// By number and not by an enum: `is_first` and `marked` promise an answer for every number, a cancel's 0 and those of no kind among them.
#[tactic(auto, unfolding(crate::specs::Table::is_first, crate::specs::Table::marked))]
pub fn meet(table: &mut [u8; NAMES], a: u8, b: u8, kind: u8) -> bool
    ensures { (result ≡ is_first table.old a b kind) × (table.new ≡ marked table.old a b kind) }
{
    let Some(at) = place_of(a, b, kind) else {
        return true;
    };
    let x = table[at];
    table[at] = with_bit(x, kind);
    is_open(x, kind)
}

// ---- what answers

// The place of a kind's value, by the place of the name.
fn value_place(at: usize, kind: u8) -> usize
    requires { (at < 8836) × (1 ≤ kind) × (kind ≤ 3) }
    ensures { result ≡ (kind - 1) * 8836 + at }
{
    (kind - Kind::FLAG) as usize * NAMES + at
}

// Marks a flag, a number or a string as the one that answers, and keeps its value modulo 65,536, unless a cancel of its name or a field of
// its name and kind was marked before. A cancel is marked by `meet`.
#[tactic(auto, unfolding(crate::specs::Answers::answers_now))]
pub fn keep(
    marks: &mut [u8; NAMES],
    values: &mut [u16; VALUES],
    a: u8,
    b: u8,
    kind: Kind,
    value: u64,
)
    ensures { (marks.new ≡ kept_marks marks.old a b (kind_number kind))
        × (values.new ≡ kept_values marks.old values.old a b (kind_number kind) value) }
{
    let number = kind.number();
    let Some(at) = place_of(a, b, number) else {
        return;
    };
    let x = marks[at];
    if !is_open(x, number) {
        return;
    }
    marks[at] = with_bit(x, number);
    values[value_place(at, number)] = (value % 65536) as u16;
}

// What answers for a name and a kind.
#[tactic(auto, unfolding(crate::specs::Answers::is_kept))]
pub fn kept_answer(
    marks: &[u8; NAMES],
    values: &[u16; VALUES],
    a: u8,
    b: u8,
    kind: Kind,
) -> Result<Option<u32>, Refusal>
    ensures { result ≡ kept_answer marks.now values.now a b (kind_number kind) }
{
    let number = kind.number();
    let Some(at) = place_of(a, b, number) else {
        return Ok(None);
    };
    if !has_bit(marks[at], number) {
        return Ok(None);
    }
    Ok(Some(u32::from(values[value_place(at, number)])))
}
