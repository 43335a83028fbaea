// Several files in one lent buffer: their ends, the part that is a file, and the search from a file onwards. In each file the search is that
// of one database.
#![tactic(auto)]

ghost use Rattle.std.specs.Prelude.{◌≡◌, ◌≤◌, length};
ghost use Rattle.spec.specs.Files.{files, good_ends, contents, file_start, file_at, find_from};

use name_search::find_line;
use spec::{Location, MOST_FILES};

// Refusal 16: "ends that fall, or pass the buffer, or more than eight".
pub fn are_good_ends(db: &[u8], ends: &[usize]) -> bool
    ensures { result ≡ good_ends (files db.now ends.now) }
{
    if ends.len() > MOST_FILES {
        return false;
    }
    let mut from = 0;
    for &end in ends {
        if end < from || end > db.len() {
            return false;
        }
        from = end;
    }
    true
}

// Where a file starts: at the end of the one before. By index: tried with `ends.get(..)`, and the proof did not close.
pub fn file_start(db: &[u8], ends: &[usize], k: u8) -> usize
    ensures { result ≡ file_start (files db.now ends.now) k }
{
    if k == 0 {
        return 0;
    }
    let i = k as usize - 1;
    if i < ends.len() {
        return ends[i];
    }
    0
}

// The part of the buffer that is a file. There is none past the last end; of ends that are refused with 16, no more than the buffer has.
pub fn file<'a>(db: &'a [u8], ends: &[usize], k: u8) -> &'a [u8]
    ensures { result.now ≡ file_at (contents (files db.now ends.now)) k }
{
    let i = k as usize;
    if i >= ends.len() {
        return &db[0..0];
    }
    let from = file_start(db, ends, k);
    let to = ends[i];
    if to <= from || from > db.len() {
        return &db[0..0];
    }
    if to > db.len() {
        return &db[from..];
    }
    &db[from..to]
}

// The first line that has the name, in the files from a file onwards.
pub fn find_from(db: &[u8], ends: &[usize], from: u8, name: &[u8]) -> Option<Location>
    requires { length ends.now ≤ 8 }
    ensures { result ≡ find_from (contents (files db.now ends.now)) from name.now }
{
    for k in from..ends.len() as u8 {
        if let Some(at) = find_line(file(db, ends, k), name) {
            return Some(Location { file: k, at });
        }
    }
    None
}
