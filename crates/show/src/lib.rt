// Show: refusals 16, 1 and 3, then the search for the name (4).
#![tactic(auto)]

ghost use Rattle.std.specs.Prelude.{◌≡◌, ◌+◌, ◌≤◌, length, Some};
ghost use Rattle.spec.specs.Lines.{extent};
ghost use Rattle.spec.specs.Files.{files, contents, file_start, file_at};
ghost use Rattle.spec.specs.Answers.{shown_report};
ghost use Rattle.spec.specs.Questions.{shown, show_answer, show_report, OwnPart};

use files::{are_good_ends, file, file_start, find_from};
use identifiers::is_good_name;
use lines::line_end;
use spec::{Location, MOST_BYTES, Part, Refusal};

// The part of the buffer that is the description at a line: from there to its end in its own file.
fn description(db: &[u8], ends: &[usize], p: Location) -> Result<Part, Refusal>
    requires { (p.at ≤ extent (file_at (contents (files db.now ends.now)) p.file) p.at)
        × (file_start (files db.now ends.now) p.file + extent (file_at (contents (files db.now ends.now)) p.file) p.at ≤ length db.now) }
    ensures { result ≡ shown (files db.now ends.now) (Some p) }
{
    let k = p.file;
    let start = file_start(db, ends, k);
    let end = line_end(file(db, ends, k), p.at);
    Ok(Part {
        from: start + p.at,
        to: start + end,
    })
}

// The part of the buffer that is shown, by its ends.
pub fn show_part(db: &[u8], ends: &[usize], name: &[u8]) -> Result<Part, Refusal>
    ensures { (result ≡ show_answer (files db.now ends.now) name.now)
        × (shown_report result ≡ show_report (files db.now ends.now) name.now) }
{
    if !are_good_ends(db, ends) {
        return Err(Refusal::BadEnds);
    }
    if !is_good_name(name) {
        return Err(Refusal::BadName);
    }
    if db.len() > MOST_BYTES {
        return Err(Refusal::DatabaseTooLarge);
    }
    match find_from(db, ends, 0, name) {
        None => Err(Refusal::UnknownName),
        Some(p) => description(db, ends, p),
    }
}

// The caller's own bytes, with 0 for the refusal; or an empty part and the refusal's number. Not a `Result`: with a refusal document 01 has
// "for Show also an empty part", which an `Err` could not hold (the edit empty_part_elsewhere).
pub fn show<'a>(db: &'a [u8], ends: &[usize], name: &[u8], refusal: &mut u8) -> &'a [u8]
    ensures { OwnPart db.entry (show_answer (files db.now ends.now) name.now) result
        × (refusal.new ≡ (show_report (files db.now ends.now) name.now).refusal) }
{
    match show_part(db, ends, name) {
        Err(r) => {
            *refusal = r.number();
            &db[0..0]
        }
        Ok(Part { from, to }) => {
            *refusal = 0;
            &db[from..to]
        }
    }
}
