// Percent sequences: each is read, and then done to the parameters.
#![tactic(auto)]

ghost use Rattle.std.specs.Prelude.{◌≡◌};
ghost use Rattle.spec.specs.Values.{held, raised, changed};
ghost use Rattle.spec.specs.Sequences.{with_next, as_decimal, as_byte, change_next, change_every, exchange, perform};
ghost use Rattle.spec.specs.declared.position.Parameter.TheVariants.{Row as OfRow, Column as OfColumn};
ghost use Rattle.places.specs.Places.{parameters_of};
ghost use Rattle.sequences.specs.Readings.{SequenceRead};
ghost use Rattle.sequences.specs.Effects.{effect_of, raised_if, decimal_effect, byte_effect, change_both_effect};

use places::{Places, Turn, ZERO};
use spec::Refusal;
use spec::position::{Change, Column, Output, Parameter, Raised, Raising, Row, Sequence};

// How the value 0 is held, wide enough for sums.
const WIDE_ZERO: u32 = 32768;

fn held(p: Parameter) -> u16
    ensures { result ≡ held p }
{
    match p {
        Parameter::Row(row) => row.0,
        Parameter::Column(column) => column.0,
    }
}

// ---- the byte that is sent

// "A byte ... that is 0, 4, 9 or 10 is raised until it is none of these, with one compensation for each step."
#[tactic(auto, unfolding(spec::specs::Values::raised_from, spec::specs::Values::raised))]
fn raise(b: u8) -> Raised
    ensures { result ≡ raised b }
{
    match b {
        0 | 4 | 10 => Raised {
            byte: b + 1,
            compensations: 1,
        },
        9 => Raised {
            byte: 11,
            compensations: 2,
        },
        _ => Raised {
            byte: b,
            compensations: 0,
        },
    }
}

fn raise_if(raises: bool, b: u8) -> Raised
    ensures { result ≡ raised_if raises b }
{
    if raises {
        return raise(b);
    }
    Raised {
        byte: b,
        compensations: 0,
    }
}

// ---- changes of a value

// "`%n`, `%B`, `%D` of a negative, and any result outside -32,768..32,767, are 12": none here.
#[tactic(auto, unfolding(spec::specs::Values::changed))]
fn change_value(c: Change, h: u16) -> Option<u16>
    ensures { result ≡ changed c h }
{
    match c {
        Change::Increment => h.checked_add(1),
        Change::Xor => {
            let value = h.checked_sub(ZERO)?;
            ZERO.checked_add(value ^ 96)
        }
        Change::AddAbove(x, y) => {
            if h > ZERO + x as u16 {
                return h.checked_add(y as u16);
            }
            Some(h)
        }
        Change::Bcd => {
            let value = h.checked_sub(ZERO)?;
            ZERO.checked_add(16 * (value / 10) + value % 10)
        }
        Change::Delta => {
            let value = h.checked_sub(ZERO)?;
            Some(h - 2 * (value % 16))
        }
    }
}

// ---- reading a sequence

// A sequence, from the byte after its sign on, with the place after it; none if there is none such.
pub fn read_sequence(command: &[u8], from: usize) -> Option<(Sequence, usize)>
    ensures { SequenceRead command.now from result }
{
    match *command.get(from)? {
        b'%' => Some((Sequence::Percent, from + 1)),
        b'd' => Some((Sequence::Decimal(1), from + 1)),
        b'2' => Some((Sequence::Decimal(2), from + 1)),
        b'3' => Some((Sequence::Decimal(3), from + 1)),
        b'.' => Some((Sequence::Byte(0), from + 1)),
        b'+' => {
            let c = *command.get(from + 1)?;
            Some((Sequence::Byte(c), from + 2))
        }
        b'i' => Some((Sequence::ChangeEvery(Change::Increment), from + 1)),
        b'n' => Some((Sequence::ChangeEvery(Change::Xor), from + 1)),
        b'r' => Some((Sequence::Exchange, from + 1)),
        b'>' => {
            let x = *command.get(from + 1)?;
            let y = *command.get(from + 2)?;
            Some((Sequence::ChangeNext(Change::AddAbove(x, y)), from + 3))
        }
        b'B' => Some((Sequence::ChangeNext(Change::Bcd), from + 1)),
        b'D' => Some((Sequence::ChangeNext(Change::Delta), from + 1)),
        _ => None,
    }
}

// ---- what a sequence does to the parameters

// What a sequence does that is not refused: it writes, and leaves the parameters so.
#[derive(Clone, Copy)]
pub struct Performed {
    pub output: Output,
    pub places: Places,
}

// "Negative decimals ... are 12."
fn as_decimal(least: u8, h: u16, ps: Places) -> Result<Performed, Refusal>
    ensures { effect_of result ≡ decimal_effect least h (parameters_of ps) }
{
    let value = h.checked_sub(ZERO).ok_or(Refusal::OutOfRange)?;
    Ok(Performed {
        output: Output::Number(value, least),
        places: ps.take_next(0),
    })
}

// `%d`, `%2`, `%3`.
fn next_as_decimal(least: u8, ps: Places) -> Result<Performed, Refusal>
    ensures { effect_of result ≡ with_next (parameters_of ps) (as_decimal least (parameters_of ps)) }
{
    match ps.next_parameter() {
        Some(Parameter::Row(row)) => as_decimal(least, row.0, ps),
        Some(Parameter::Column(column)) => as_decimal(least, column.0, ps),
        None => Err(Refusal::TooFewParameters),
    }
}

// "Bytes outside 0..255 are 12"; "the range test comes before raising".
fn as_byte(raises: bool, c: u8, h: u16, ps: Places) -> Result<Performed, Refusal>
    ensures { effect_of result ≡ byte_effect raises c h (parameters_of ps) }
{
    let sum = h as u32 + c as u32;
    if sum < WIDE_ZERO || sum - WIDE_ZERO >= 256 {
        return Err(Refusal::OutOfRange);
    }
    let sent = raise_if(raises, (sum - WIDE_ZERO) as u8);
    Ok(Performed {
        output: Output::Single(sent.byte),
        places: ps.take_next(sent.compensations),
    })
}

// A row's bytes and a column's are raised by two functions: by the type, neither is taken for the other (decision 44).
fn row_as_byte(g: Raising, c: u8, row: Row, ps: Places) -> Result<Performed, Refusal>
    ensures { effect_of result ≡ as_byte g c (parameters_of ps) (OfRow row) }
{
    as_byte(g.rows, c, row.0, ps)
}

fn column_as_byte(g: Raising, c: u8, column: Column, ps: Places) -> Result<Performed, Refusal>
    ensures { effect_of result ≡ as_byte g c (parameters_of ps) (OfColumn column) }
{
    as_byte(g.columns, c, column.0, ps)
}

// `%.`, `%+c`.
fn next_as_byte(g: Raising, c: u8, ps: Places) -> Result<Performed, Refusal>
    ensures { effect_of result ≡ with_next (parameters_of ps) (as_byte g c (parameters_of ps)) }
{
    match ps.next_parameter() {
        Some(Parameter::Row(row)) => row_as_byte(g, c, row, ps),
        Some(Parameter::Column(column)) => column_as_byte(g, c, column, ps),
        None => Err(Refusal::TooFewParameters),
    }
}

// "On the next one."
fn change_next(c: Change, ps: Places) -> Result<Performed, Refusal>
    ensures { effect_of result ≡ change_next c (parameters_of ps) }
{
    let next = ps.next_parameter().ok_or(Refusal::TooFewParameters)?;
    let h = change_value(c, held(next)).ok_or(Refusal::OutOfRange)?;
    Ok(Performed {
        output: Output::Nothing,
        places: ps.with_next(h),
    })
}

// The row and the column.
fn change_both(c: Change, ps: Places) -> Result<Performed, Refusal>
    ensures { effect_of result ≡ change_both_effect c ps }
{
    let row = change_value(c, ps.row.0).ok_or(Refusal::OutOfRange)?;
    let column = change_value(c, ps.column.0).ok_or(Refusal::OutOfRange)?;
    Ok(Performed {
        output: Output::Nothing,
        places: ps.with_row(Row(row)).with_column(Column(column)),
    })
}

// "To every unused parameter ... (11 for either if none is unused)."
#[tactic(auto, unfolding(places::specs::Places::parameters_of))]
fn change_every(c: Change, ps: Places) -> Result<Performed, Refusal>
    ensures { effect_of result ≡ change_every c (parameters_of ps) }
{
    match ps.turn {
        Turn::RowColumn | Turn::ColumnRow => change_both(c, ps),
        Turn::ColumnLeft | Turn::RowLeft => change_next(c, ps),
        Turn::RowFirst | Turn::ColumnFirst => Err(Refusal::TooFewParameters),
    }
}

// "`%r` exchanges the two (both unused)": each stays on its axis, and their turn changes.
#[tactic(auto, unfolding(places::specs::Places::parameters_of))]
fn exchange(ps: Places) -> Result<Performed, Refusal>
    ensures { effect_of result ≡ exchange (parameters_of ps) }
{
    let turn = match ps.turn {
        Turn::RowColumn => Turn::ColumnRow,
        Turn::ColumnRow => Turn::RowColumn,
        _ => return Err(Refusal::TooFewParameters),
    };
    Ok(Performed {
        output: Output::Nothing,
        places: ps.with_turn(turn),
    })
}

// Does a whole sequence: what it writes, and the parameters after it.
#[tactic(auto, unfolding(spec::specs::Sequences::perform))]
pub fn perform(g: Raising, sequence: Sequence, ps: Places) -> Result<Performed, Refusal>
    ensures { effect_of result ≡ perform g sequence (parameters_of ps) }
{
    match sequence {
        Sequence::Percent => Ok(Performed {
            output: Output::Single(b'%'),
            places: ps,
        }),
        Sequence::Decimal(least) => next_as_decimal(least, ps),
        Sequence::Byte(c) => next_as_byte(g, c, ps),
        Sequence::ChangeEvery(c) => change_every(c, ps),
        Sequence::ChangeNext(c) => change_next(c, ps),
        Sequence::Exchange => exchange(ps),
    }
}
