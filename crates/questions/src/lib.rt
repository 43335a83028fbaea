// Flag, Number and String. Database, ends and name stay three arguments: the public functions take them so, and promise of each.
#![tactic(auto)]

ghost use Rattle.std.specs.Prelude.{◌≡◌, ◌≤◌, length, drop};
ghost use Rattle.spec.specs.Files.{files, contents, file_at};
ghost use Rattle.spec.specs.Answers.{answer_report};
ghost use Rattle.spec.specs.Questions.{terminal_for, answer_for, flag_answer, flag_report, number_answer, number_report, string_outcome, string_report};
ghost use Rattle.questions.specs.Answers.{id_refusal, AskedFor, text_length, read_value, TextOf, TextWritten};

use escapes::decode_text;
use fields::FieldRead;
use files::{are_good_ends, file};
use identifiers::{is_good_id, is_good_name};
use lookup::look_up;
use spec::{Kind, Location, Refusal};
use terminal::resolve;

// Why a question with a bad id is refused: 16, 1, then 2.
fn id_refusal(db: &[u8], ends: &[usize], name: &[u8]) -> Refusal
    ensures { result ≡ id_refusal (files db.now ends.now) name.now }
{
    if !are_good_ends(db, ends) {
        return Refusal::BadEnds;
    }
    if !is_good_name(name) {
        return Refusal::BadName;
    }
    Refusal::BadId
}

// Refusals 16, 1 and 2, then 3 and the walk, then the lookup. Ends and name are tested once: by `resolve`, unless the id is bad. What is found
// is a place of a file where the fields of a line start, and what the field is read as in the part of the file from there on.
fn ask(
    db: &[u8],
    ends: &[usize],
    name: &[u8],
    id: &[u8],
    kind: Kind,
) -> Result<Option<(Location, FieldRead)>, Refusal>
    ensures { AskedFor (files db.now ends.now) name.now id.now kind result }
{
    if !is_good_id(id) {
        return Err(id_refusal(db, ends, name));
    }
    let chain = resolve(db, ends, name)?;
    Ok(look_up(db, ends, chain, id[0], id[1], kind))
}

// The value of a field that is read so: 1, the number, or the decoded length.
fn value_of(read: FieldRead) -> u32
    requires { text_length read ≤ 1048576 }
    ensures { result ≡ read_value read }
{
    match read {
        FieldRead::Flag(_, _) => 1,
        FieldRead::Number(_, _, v) => v,
        FieldRead::String(_, _, _, n) => n as u32,
        _ => 0,
    }
}

fn answer_value(
    db: &[u8],
    ends: &[usize],
    name: &[u8],
    id: &[u8],
    kind: Kind,
) -> Result<Option<u32>, Refusal>
    ensures { result ≡ answer_for id.now kind (terminal_for (files db.now ends.now) name.now id.now) }
{
    let Some((_, read)) = ask(db, ends, name, id, kind)? else {
        return Ok(None);
    };
    Ok(Some(value_of(read)))
}

pub fn flag(db: &[u8], ends: &[usize], name: &[u8], id: &[u8]) -> Result<Option<u32>, Refusal>
    ensures { (result ≡ flag_answer (files db.now ends.now) name.now id.now)
        × (answer_report result ≡ flag_report (files db.now ends.now) name.now id.now) }
{
    answer_value(db, ends, name, id, Kind::Flag)
}

pub fn number(db: &[u8], ends: &[usize], name: &[u8], id: &[u8]) -> Result<Option<u32>, Refusal>
    ensures { (result ≡ number_answer (files db.now ends.now) name.now id.now)
        × (answer_report result ≡ number_report (files db.now ends.now) name.now id.now) }
{
    answer_value(db, ends, name, id, Kind::Number)
}

// Writes the decoded bytes of the text at a place, of which there are n, if they fit.
fn write_text(s: &[u8], text: usize, n: usize, out: &mut [u8]) -> Result<Option<u32>, Refusal>
    requires { (n ≤ 1048576) × TextOf s.now text n }
    ensures { TextWritten s.now text out.old result out.new }
{
    if n > out.len() {
        return Err(Refusal::NoRoom);
    }
    decode_text(s, text, out);
    Ok(Some(n as u32))
}

// The same of a text in the part of a file from a place on.
fn write_at(
    db: &[u8],
    ends: &[usize],
    p: Location,
    text: usize,
    n: usize,
    out: &mut [u8],
) -> Result<Option<u32>, Refusal>
    requires { (n ≤ 1048576) × (p.at ≤ length (file_at (contents (files db.now ends.now)) p.file))
        × TextOf (drop p.at (file_at (contents (files db.now ends.now)) p.file)) text n }
    ensures { TextWritten (drop p.at (file_at (contents (files db.now ends.now)) p.file)) text out.old result
        out.new }
{
    let part = file(db, ends, p.file);
    write_text(&part[p.at..], text, n, out)
}

// The text is measured before it is written. No field that is no string answers; it would have no bytes.
pub fn string(
    db: &[u8],
    ends: &[usize],
    name: &[u8],
    id: &[u8],
    out: &mut [u8],
) -> Result<Option<u32>, Refusal>
    ensures { (result ≡ (string_outcome (files db.now ends.now) name.now id.now out.old).answer)
        × (out.new ≡ (string_outcome (files db.now ends.now) name.now id.now out.old).buffer)
        × (answer_report result ≡ string_report (files db.now ends.now) name.now id.now out.old) }
{
    let Some((p, read)) = ask(db, ends, name, id, Kind::String)? else {
        return Ok(None);
    };
    match read {
        FieldRead::String(_, _, text, n) => write_at(db, ends, p, text, n, out),
        _ => Ok(Some(0)),
    }
}
