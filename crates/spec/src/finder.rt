// The state of a finder that is fed a database in blocks (document 02, Ask 8). The definitions over it are in specs/Finder. It has plain
// numbers only, and no byte between them: a caller from C may hand in any bytes.

// More joined bytes of a matching line are refused with 8.
pub const LONGEST_LINE: u16 = 16384;

// How far the present line has been read, in joined bytes.
// stage: 0, only blanks so far, or nothing; 2, the line has the asked name; 3, it cannot have it; 4, the first line that has it is complete,
// and no later byte counts; any other number, its names are being read.
// matched: how many bytes the present name has, all of them as in the asked name; 65 where one differs.
// count: how many bytes of the line were collected, at most one more than the longest line has.
#[repr(C)]
#[derive(Clone, Copy)]
pub struct LineState {
    pub stage: u8,
    pub matched: u8,
    pub count: u16,
}

// held: the last byte was a backslash, and whether it vanishes is not known yet. ended: the end was declared. Both are 0 for no. The asked
// name is the first `size` bytes of `name`: an array with its size, since the state is C's to keep.
#[repr(C)]
#[derive(Clone, Copy)]
pub struct Finder {
    pub line: LineState,
    pub held: u8,
    pub ended: u8,
    pub size: u16,
    pub name: [u8; 64],
}
