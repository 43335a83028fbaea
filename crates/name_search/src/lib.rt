// Finds the line of a terminal in a termcap database: from candidate to candidate, lines that may have the name. Only where the asked
// name is spelled, or may be cut by a backslash and a newline, is a line looked at by itself.
#![tactic(auto)]

ghost use Rattle.std.specs.Prelude.{◌≤◌, ◌<◌, ◌≡◌, length};
ghost use Rattle.spec.specs.Lines.{find_line};
ghost use Rattle.name_search.specs.Candidates.{Closes, LineOf, NextCandidate};

use lines::{is_ignored, is_name, line_end, next_name};
use name_scan::{BLOCKS, PARTS, next_hit};

// A database of fewer bytes is searched without the scan's lists: to clear them would cost more than they save.
const LISTED: usize = 2048;

// Where the line starts, behind the line's end at `end`, that has the place before `at`.
fn line_of(s: &[u8], end: usize, at: usize) -> usize
    requires end_lt_at { end < at }
    requires at_in_bounds { at ≤ length s.now }
    requires closes { Closes s.now end }
    ensures { LineOf s.now end at result }
{
    for i in (end + 1..at).rev() {
        if s[i] == b'\n' && s[i - 1] != b'\\' {
            return i + 1;
        }
    }
    end + 1
}

// Where a line starts, behind the line that ends at `end`, such that no line between the two has the name. An empty name has no byte to
// look for, and before the third byte there are no two: each line may have it.
fn next_candidate(
    s: &[u8],
    end: usize,
    name: &[u8],
    blocks: &mut [u16],
    parts: &mut [u16],
) -> Option<usize>
    requires end_in_bounds { end ≤ length s.now }
    requires closes { end < length s.now → Closes s.now end }
    ensures { NextCandidate s.now name.now end result }
{
    let len = s.len();
    if end == len {
        return None;
    }
    if end < 2 || name.is_empty() {
        return Some(end + 1);
    }
    let at = next_hit(s, end - 2, name, blocks, parts);
    if len - at > 2 {
        return Some(line_of(s, end, at + 3));
    }
    None
}

// Where the first line starts that is not ignored and that has the name: lines in the outer loop, names in the inner one. The outer loop
// goes from candidate to candidate; the lists are for the scan.
fn search_lines(db: &[u8], name: &[u8], blocks: &mut [u16], parts: &mut [u16]) -> Option<usize>
    ensures { result ≡ find_line db.now name.now }
{
    let mut at = 0;
    'lines: loop {
        if !is_ignored(db, at) {
            let mut p = at;
            loop {
                if is_name(db, p, name) {
                    break 'lines Some(at);
                }
                match next_name(db, p) {
                    Some(n) => p = n,
                    None => break,
                }
            }
        }
        match next_candidate(db, line_end(db, at), name, blocks, parts) {
            Some(n) => at = n,
            None => break None,
        }
    }
}

// Where the first line starts that is not ignored and that has the name.
pub fn find_line(db: &[u8], name: &[u8]) -> Option<usize>
    ensures { result ≡ find_line db.now name.now }
{
    if db.len() < LISTED {
        let mut no_blocks = [0u16; 0];
        let mut no_parts = [0u16; 0];
        return search_lines(db, name, &mut no_blocks, &mut no_parts);
    }
    let mut blocks = [0u16; BLOCKS];
    let mut parts = [0u16; PARTS];
    search_lines(db, name, &mut blocks, &mut parts)
}
