// The two parameters on the way, in eight bytes, which pass in one register. What they stand for is `parameters_of` of specs/Places.
#![tactic(auto)]

ghost use Rattle.std.specs.Prelude.{◌≡◌};
ghost use Rattle.spec.specs.Sequences.{take_next};
ghost use Rattle.spec.specs.declared.position.Parameter.TheVariants.{Row as OfRow, Column as OfColumn};
ghost use Rattle.spec.specs.declared.position.Parameters.TheVariants.{TwoUnused};
ghost use Rattle.places.specs.Places.{parameters_of, next_of, with_next_value};

use spec::position::{Column, Parameter, Row};

// How a row or a column holds the value 0; negative values are held below it.
pub const ZERO: u16 = 32768;

// Which parameters are unused, in their present order; once both are used, the order of their use.
#[derive(Clone, Copy)]
pub enum Turn {
    RowColumn,
    ColumnRow,
    ColumnLeft,
    RowLeft,
    RowFirst,
    ColumnFirst,
}

// The two parameters, each in a field of its own type, and how many compensations each owes: up strings for the row, back strings for the
// column. An exchange changes only the turn.
#[derive(Clone, Copy)]
pub struct Places {
    pub row: Row,
    pub column: Column,
    pub turn: Turn,
    pub ups: u8,
    pub backs: u8,
}

impl Places {
    // "Row is the first parameter, column the second."
    #[tactic(auto, unfolding(crate::specs::Places::parameters_of))]
    pub fn both_unused(row: Row, column: Column) -> Places
        ensures { parameters_of result ≡ TwoUnused (OfRow row) (OfColumn column) }
    {
        Places {
            row,
            column,
            turn: Turn::RowColumn,
            ups: 0,
            backs: 0,
        }
    }

    // The next parameter, on its axis.
    #[tactic(auto, unfolding(crate::specs::Places::parameters_of))]
    pub fn next_parameter(self) -> Option<Parameter>
        ensures { result ≡ next_of (parameters_of self) }
    {
        match self.turn {
            Turn::RowColumn | Turn::RowLeft => Some(Parameter::Row(self.row)),
            Turn::ColumnRow | Turn::ColumnLeft => Some(Parameter::Column(self.column)),
            Turn::RowFirst | Turn::ColumnFirst => None,
        }
    }

    // The next parameter is used up, and its byte asks for so many compensations.
    #[tactic(auto, unfolding(crate::specs::Places::parameters_of))]
    pub fn take_next(self, compensations: u8) -> Places
        ensures { parameters_of result ≡ take_next (parameters_of self) compensations }
    {
        match self.turn {
            Turn::RowColumn => Places {
                turn: Turn::ColumnLeft,
                ups: compensations,
                ..self
            },
            Turn::RowLeft => Places {
                turn: Turn::ColumnFirst,
                ups: compensations,
                ..self
            },
            Turn::ColumnRow => Places {
                turn: Turn::RowLeft,
                backs: compensations,
                ..self
            },
            Turn::ColumnLeft => Places {
                turn: Turn::RowFirst,
                backs: compensations,
                ..self
            },
            Turn::RowFirst | Turn::ColumnFirst => self,
        }
    }

    // The same in another turn.
    pub fn with_turn(self, turn: Turn) -> Places
        ensures { result ≡ record { row = self.row; column = self.column; turn = turn; ups = self.ups; backs = self.backs } }
    {
        Places { turn, ..self }
    }

    // Another row, another column: "each keeps its axis".
    pub fn with_row(self, row: Row) -> Places
        ensures { result ≡ record { row = row; column = self.column; turn = self.turn; ups = self.ups; backs = self.backs } }
    {
        Places { row, ..self }
    }

    pub fn with_column(self, column: Column) -> Places
        ensures { result ≡ record { row = self.row; column = column; turn = self.turn; ups = self.ups; backs = self.backs } }
    {
        Places { column, ..self }
    }

    // The next parameter holds another value.
    #[tactic(auto, unfolding(crate::specs::Places::parameters_of))]
    pub fn with_next(self, h: u16) -> Places
        ensures { parameters_of result ≡ with_next_value (parameters_of self) h }
    {
        match self.turn {
            Turn::RowColumn | Turn::RowLeft => self.with_row(Row(h)),
            Turn::ColumnRow | Turn::ColumnLeft => self.with_column(Column(h)),
            Turn::RowFirst | Turn::ColumnFirst => self,
        }
    }
}
