// The types of filling in a position. The definitions over them are in specs/Values, specs/Sequences and specs/Position.
// A row and a column are types of their own, so that neither is ever taken for the other. Each holds its value plus 32,768: a value
// may be negative, -32,768..32,767, and what is held is 0..65,535.
#[derive(Clone, Copy)]
pub struct Row(pub u16);

#[derive(Clone, Copy)]
pub struct Column(pub u16);

// A parameter keeps its axis, also when it is exchanged.
#[derive(Clone, Copy)]
pub enum Parameter {
    Row(Row),
    Column(Column),
}

// A parameter that was used, and how many compensations its byte asks for.
#[derive(Clone, Copy)]
pub struct Used {
    pub parameter: Parameter,
    pub compensations: u8,
}

// The two parameters on the way: the unused ones in their present order, after the used ones in the order of their use.
#[derive(Clone, Copy)]
pub enum Parameters {
    TwoUnused(Parameter, Parameter),
    OneUnused(Used, Parameter),
    AllUsed(Used, Used),
}

// Whether bytes for rows are raised, and bytes for columns.
#[derive(Clone, Copy)]
pub struct Raising {
    pub rows: bool,
    pub columns: bool,
}

// A byte to be sent, and how many compensations it asks for.
#[derive(Clone, Copy)]
pub struct Raised {
    pub byte: u8,
    pub compensations: u8,
}

// A change of one value: %i, %n, %>xy, %B, %D.
#[derive(Clone, Copy)]
pub enum Change {
    Increment,
    Xor,
    AddAbove(u8, u8),
    Bcd,
    Delta,
}

// A percent sequence: %%; %d, %2, %3 with their least width; %+c (%. adds 0); a change of every unused parameter (%i, %n) or of the
// next one (%>xy, %B, %D); %r.
#[derive(Clone, Copy)]
pub enum Sequence {
    Percent,
    Decimal(u8),
    Byte(u8),
    ChangeEvery(Change),
    ChangeNext(Change),
    Exchange,
}

// What is still to be read of a percent sequence: its letter, the byte of %+c, the first and the second byte of %>xy.
#[derive(Clone, Copy)]
pub enum Pending {
    Letter,
    Added,
    Threshold,
    Addend(u8),
}

// A percent sequence after one more byte: it goes on, it is whole, or there is none such.
#[derive(Clone, Copy)]
pub enum Progress {
    More(Pending),
    Whole(Sequence),
    Unknown,
}

// What a sequence writes: nothing, a byte, or a number in decimal with at least so many digits.
#[derive(Clone, Copy)]
pub enum Output {
    Nothing,
    Single(u8),
    Number(u16, u8),
}

// What a sequence does that is not refused: it writes, and leaves the parameters so.
#[derive(Clone, Copy)]
pub struct Effect {
    pub output: Output,
    pub parameters: Parameters,
}
