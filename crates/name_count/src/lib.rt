// The search that counts: whether a name is found, and how many names had bytes compared, those of the asked length up to the first equal
// one. It looks at name after name, and compares none that has another length.
#![tactic(auto)]

ghost use Rattle.std.specs.Prelude.{◌≡◌, [], ◌∷◌, ◌≤◌, length};
ghost use Rattle.spec.specs.Answers.{searched_report};
ghost use Rattle.spec.specs.Lines.{text_at, line_text, first_name};
ghost use Rattle.spec.specs.Files.{files, contents};
ghost use Rattle.spec.specs.Search.{split_names, line_names, file_names, all_names, search_answer, search_report};
ghost use Rattle.name_count.specs.Tallies.{Fits, Tallied};

use files::{are_good_ends, file};
use identifiers::is_good_name;
use lines::{has_length, is_equal, is_ignored, next_line, next_name};
use spec::{MOST_BYTES, Refusal, Tally};

// A tally here is of some names, and counts those before them too.

// The name at a place.
fn count_name(s: &[u8], at: usize, name: &[u8], before: usize) -> Tally
    requires { Fits name.now (first_name (line_text (text_at s.now at)) ∷ []) before }
    ensures { Tallied name.now (first_name (line_text (text_at s.now at)) ∷ []) before result }
{
    if !has_length(s, at, name.len()) {
        return Tally {
            found: false,
            compared: before,
        };
    }
    Tally {
        found: is_equal(s, at, name),
        compared: before + 1,
    }
}

// The names of the line at a place, ignored or not.
fn count_names(s: &[u8], at: usize, name: &[u8], before: usize) -> Tally
    requires { Fits name.now (split_names (line_text (text_at s.now at))) before }
    ensures { Tallied name.now (split_names (line_text (text_at s.now at))) before result }
{
    let mut n = before;
    let mut i = at;
    loop {
        let t = count_name(s, i, name, n);
        if t.found {
            return t;
        }
        n = t.compared;
        match next_name(s, i) {
            Some(p) => i = p,
            None => return Tally {
                found: false,
                compared: n,
            },
        }
    }
}

// The names of the line at a place: an ignored line holds none.
fn count_line(s: &[u8], at: usize, name: &[u8], before: usize) -> Tally
    requires { Fits name.now (line_names (line_text (text_at s.now at))) before }
    ensures { Tallied name.now (line_names (line_text (text_at s.now at))) before result }
{
    if is_ignored(s, at) {
        return Tally {
            found: false,
            compared: before,
        };
    }
    count_names(s, at, name, before)
}

// The names of a file, line after line.
fn count_file(s: &[u8], name: &[u8], before: usize) -> Tally
    requires { Fits name.now (file_names s.now) before }
    ensures { Tallied name.now (file_names s.now) before result }
{
    let mut n = before;
    let mut at = 0;
    loop {
        let t = count_line(s, at, name, n);
        if t.found {
            return t;
        }
        n = t.compared;
        match next_line(s, at) {
            Some(p) => at = p,
            None => return Tally {
                found: false,
                compared: n,
            },
        }
    }
}

// The names of all files, file after file.
fn count_files(db: &[u8], ends: &[usize], name: &[u8]) -> Tally
    requires ends_len_bound { length ends.now ≤ 8 }
    requires fits { Fits name.now (all_names (contents (files db.now ends.now))) 0 }
    ensures { Tallied name.now (all_names (contents (files db.now ends.now))) 0 result }
{
    let mut n = 0;
    for k in 0..ends.len() as u8 {
        let t = count_file(file(db, ends, k), name, n);
        if t.found {
            return t;
        }
        n = t.compared;
    }
    Tally {
        found: false,
        compared: n,
    }
}

// Refusals 16, 1 and 3, then the count. A name that is not found is an answer.
pub fn search(db: &[u8], ends: &[usize], name: &[u8]) -> Result<Tally, Refusal>
    ensures { (result ≡ search_answer (files db.now ends.now) name.now)
        × (searched_report result ≡ search_report (files db.now ends.now) name.now) }
{
    if !are_good_ends(db, ends) {
        return Err(Refusal::BadEnds);
    }
    if !is_good_name(name) {
        return Err(Refusal::BadName);
    }
    if db.len() > MOST_BYTES {
        return Err(Refusal::DatabaseTooLarge);
    }
    Ok(count_files(db, ends, name))
}
