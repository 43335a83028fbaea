// A body filled in, and the compensations after it, into a lent buffer. With an empty part of the buffer they are only measured, against
// a capacity that is given.
#![tactic(auto)]

ghost use Rattle.std.specs.Prelude.{◌≡◌, ◌+◌, ◌≤◌, ◌<◌, eqb};
ghost use Rattle.spec.specs.Choice.{both};
ghost use Rattle.spec.specs.Position.{plain_of, raising_for, compensation, repeated, compensations, compensated};
ghost use Rattle.spec.specs.declared.position.Parameter.TheVariants.{Row as OfRow, Column as OfColumn};
ghost use Rattle.places.specs.Places.{parameters_of};
ghost use Rattle.compensations.specs.Appending.{BytesAppended, BodyFilledIn};

use places::{Places, Turn};
use position::fill_body;
use spec::Refusal;
use spec::position::{Column, Raising, Row};
use stores::put_bytes;

// The place after bytes that were appended; none if there is no room for them.
fn append(bytes: &[u8], capacity: usize, out: &mut [u8], at: usize) -> Option<usize>
    requires { at ≤ capacity }
    ensures { BytesAppended bytes.now capacity out.old at result out.new }
{
    if bytes.len() > capacity - at {
        return None;
    }
    put_bytes(out, at, bytes);
    Some(at + bytes.len())
}

// The same several times over.
fn append_times(
    bytes: &[u8],
    count: u8,
    capacity: usize,
    out: &mut [u8],
    at: usize,
) -> Option<usize>
    requires { at ≤ capacity }
    ensures { BytesAppended (repeated count bytes.now) capacity out.old at result out.new }
{
    let mut end = at;
    for _ in 0..count {
        end = append(bytes, capacity, out, end)?;
    }
    Some(end)
}

// What is appended for a row: "up string for a row, taken as they stand". Two functions, here and below, by their types: a row is never
// taken for a column (decision 44).
fn compensation_of_row<'a>(row: Row, back: &'a [u8], up: &'a [u8]) -> &'a [u8]
    ensures { result.now ≡ compensation back.now up.now (OfRow row) }
{
    up
}

// What is appended for a column: "back string for a column ... Only back empty: byte 8 stands for it."
fn compensation_of_column<'a>(column: Column, back: &'a [u8], up: &'a [u8]) -> &'a [u8]
    ensures { result.now ≡ compensation back.now up.now (OfColumn column) }
{
    if back.is_empty() {
        return b"\x08";
    }
    back
}

// Whether neither parameter owes a compensation.
fn owes_nothing(ps: Places) -> bool
    ensures { result ≡ both (eqb ps.ups 0) (eqb ps.backs 0) }
{
    ps.ups == 0 && ps.backs == 0
}

// "In the order of the raised bytes."
#[tactic(auto, unfolding(spec::specs::Position::compensations, places::specs::Places::parameters_of))]
fn append_compensations(
    ps: Places,
    back: &[u8],
    up: &[u8],
    capacity: usize,
    out: &mut [u8],
    at: usize,
) -> Option<usize>
    requires { at ≤ capacity }
    ensures { BytesAppended (compensations back.now up.now (parameters_of ps)) capacity
        out.old at result out.new }
{
    if owes_nothing(ps) {
        return Some(at);
    }
    let for_row = compensation_of_row(ps.row, back, up);
    let for_column = compensation_of_column(ps.column, back, up);
    match ps.turn {
        Turn::RowColumn | Turn::ColumnRow => Some(at),
        Turn::ColumnLeft => append_times(for_row, ps.ups, capacity, out, at),
        Turn::RowLeft => append_times(for_column, ps.backs, capacity, out, at),
        Turn::RowFirst => {
            let next = append_times(for_row, ps.ups, capacity, out, at)?;
            append_times(for_column, ps.backs, capacity, out, next)
        }
        Turn::ColumnFirst => {
            let next = append_times(for_column, ps.backs, capacity, out, at)?;
            append_times(for_row, ps.ups, capacity, out, next)
        }
    }
}

// "Both strings empty: off. ... Only up empty: rows aren't raised."
fn raising_for(back: &[u8], up: &[u8]) -> Raising
    ensures { result ≡ raising_for back.now up.now }
{
    Raising {
        rows: !up.is_empty(),
        columns: !(back.is_empty() && up.is_empty()),
    }
}

// "A compensation is appended after the body": the place after them, none if there is no room for them, or the body's first fault.
pub fn fill_in(
    body: &[u8],
    first: Places,
    back: &[u8],
    up: &[u8],
    capacity: usize,
    out: &mut [u8],
) -> Result<Option<usize>, Refusal>
    ensures { BodyFilledIn (compensated back.now up.now
        (plain_of body.now (raising_for back.now up.now) (parameters_of first)))
        capacity out.old result out.new }
{
    let filled = fill_body(body, raising_for(back, up), first, out)?;
    if filled.end > capacity {
        return Ok(None);
    }
    Ok(append_compensations(filled.places, back, up, capacity, out, filled.end))
}
