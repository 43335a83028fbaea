// The lines of a termcap database and their names. A place is an index of the raw database. The joined text at a place is what
// stands from there on once each backslash that a newline follows has vanished with that newline.
#![tactic(auto)]

ghost use Rattle.std.specs.Prelude.{◌≡◌, eqb, length};
ghost use Rattle.spec.specs.Lists.{same};
ghost use Rattle.spec.specs.Lines.{text_at, line_text, blank, is_ignored, first_name, extent};
ghost use Rattle.lines.specs.Answers.{Peeked, NextName, NextLine, Closed};

// The first byte of the joined text at a place, with the place after it; none at the end of the database.
pub fn peek(s: &[u8], at: usize) -> Option<(u8, usize)>
    ensures { Peeked s.now at result }
{
    let mut i = at;
    while i < s.len() {
        let b = s[i];
        let j = i + 1;
        if b == b'\\' && j < s.len() && s[j] == b'\n' {
            i = j + 1;
            continue;
        }
        return Some((b, j));
    }
    None
}

// Whether the line at a place has only spaces and tabs.
#[tactic(auto, unfolding(spec::specs::Lines::blank, spec::specs::Lines::line_text))]
fn is_blank(s: &[u8], at: usize) -> bool
    ensures { result ≡ blank (line_text (text_at s.now at)) }
{
    let mut i = at;
    loop {
        match peek(s, i) {
            Some((b, n)) => match b {
                b'\n' => return true,
                b' ' | b'\t' => i = n,
                _ => return false,
            },
            None => return true,
        }
    }
}

// Whether the line at a place is ignored.
#[tactic(auto, unfolding(spec::specs::Lines::comment, spec::specs::Lines::blank, spec::specs::Lines::line_text))]
pub fn is_ignored(s: &[u8], at: usize) -> bool
    ensures { result ≡ is_ignored (line_text (text_at s.now at)) }
{
    match peek(s, at) {
        Some((b, _)) => b == b'#' || is_blank(s, at),
        None => true,
    }
}

// Whether the first name of the line at a place has `count` bytes.
#[tactic(auto, using(laws::proofs::TextSteps::name_on), unfolding(spec::specs::Lines::first_name, spec::specs::Lines::line_text, spec::specs::Lists::upto))]
pub fn has_length(s: &[u8], at: usize, count: usize) -> bool
    ensures { result ≡ eqb (length (first_name (line_text (text_at s.now at)))) count }
{
    let mut i = at;
    let mut k = 0;
    loop {
        match peek(s, i) {
            Some((b, n)) => match b {
                b'\n' | b':' | b'|' => return k == count,
                _ if k == count => return false,
                _ => {
                    k += 1;
                    i = n;
                }
            },
            None => return k == count,
        }
    }
}

// Whether the first name of the line at a place is `name`, byte by byte.
#[tactic(auto, using(laws::proofs::TextSteps::name_on, laws::proofs::TextSteps::same_next, laws::proofs::TextSteps::same_differs))]
pub fn is_equal(s: &[u8], at: usize, name: &[u8]) -> bool
    ensures { result ≡ same name.now (first_name (line_text (text_at s.now at))) }
{
    let mut i = at;
    let mut k = 0;
    loop {
        match peek(s, i) {
            Some((b, n)) => match b {
                b'\n' | b':' | b'|' => return k == name.len(),
                _ if k < name.len() && name[k] == b => {
                    k += 1;
                    i = n;
                }
                _ => return false,
            },
            None => return k == name.len(),
        }
    }
}

// Whether the first name of the line at a place is `name`. No byte is compared of a name that has another length.
#[tactic(auto, using(laws::proofs::WholeLines::other_length))]
pub fn is_name(s: &[u8], at: usize, name: &[u8]) -> bool
    ensures { result ≡ same name.now (first_name (line_text (text_at s.now at))) }
{
    has_length(s, at, name.len()) && is_equal(s, at, name)
}

// Where the name after the one at a place starts.
#[tactic(auto, using(laws::proofs::TextSteps::names_on))]
pub fn next_name(s: &[u8], at: usize) -> Option<usize>
    ensures { NextName s.now at result }
{
    let mut i = at;
    loop {
        match peek(s, i) {
            Some((b, n)) => match b {
                b'\n' | b':' => return None,
                b'|' => return Some(n),
                _ => i = n,
            },
            None => return None,
        }
    }
}

// The place behind the newline that ends the line at a place, if one does.
#[tactic(auto, using(laws::proofs::Extents::extent_on), unfolding(spec::specs::Lines::later_lines, spec::specs::Lines::extent, spec::specs::Lines::line_end))]
fn past_line(db: &[u8], at: usize) -> Option<usize>
    ensures later { NextLine db.now at result }
    ensures closed { Closed db.now at result }
{
    let mut i = at;
    loop {
        match peek(db, i) {
            Some((b, n)) => {
                if b == b'\n' {
                    return Some(n);
                }
                i = n;
            }
            None => return None,
        }
    }
}

// Where the line at a place ends, its closing newline not counted.
pub fn line_end(db: &[u8], at: usize) -> usize
    ensures { result ≡ extent db.now at }
{
    match past_line(db, at) {
        Some(n) => n - 1,
        None => db.len(),
    }
}

// Where the line after the one at a place starts.
pub fn next_line(db: &[u8], at: usize) -> Option<usize>
    ensures { NextLine db.now at result }
{
    past_line(db, at)
}
