// A screenful of questions at once: one walk, one pass over the fields of the chain into a table of what answers for each name and kind,
// and one over the questions.
#![tactic(auto)]

ghost use Rattle.std.specs.Prelude.{◌≡◌, true, ◌∷◌, ◌*◌, ◌/◌, ◌≤◌, ◌<◌, length};
ghost use Rattle.std.proofs.lemmas.List.Edits.{sets};
ghost use Rattle.spec.specs.Lines.{line_at};
ghost use Rattle.spec.specs.Refusals.{good_name};
ghost use Rattle.spec.specs.Files.{files, good_ends, contents};
ghost use Rattle.spec.specs.Fields.{split, fields_of};
ghost use Rattle.spec.specs.Chain.{joined_fields, resolve as resolved};
ghost use Rattle.spec.specs.Answers.{written_report};
ghost use Rattle.spec.specs.Listing.{four_bytes};
ghost use Rattle.spec.specs.Batch.{answer_bytes, batch_answers, batch_outcome, batch_report};
ghost use Rattle.spec.specs.Fields.{kind_number};
ghost use Rattle.capability_table.specs.Answers.{kept_marks, kept_values};
ghost use Rattle.chain.specs.Answers.{lines_of};
ghost use Rattle.batch.specs.Answers.{Notes, NotesRead, NotesTexts, NotesTerminal, Answers, PutAnswers};

use capability_table::{CANCEL, NAMES, VALUES, keep, kept_answer, meet};
use chain::Chain;
use field_bounds::{AfterNames, after_names};
use fields::{Field, FieldRead, is_id, next_field};
use files::{are_good_ends, file};
use identifiers::is_good_name;
use spec::{Kind, MOST_BYTES, Refusal};
use stores::{four_bytes, put_bytes};
use terminal::resolve;

const QUESTION_SIZE: usize = 4;

const ANSWER_SIZE: usize = 8;

// The four bytes of a question: "id, kind 1 to 3, a zero".
#[derive(Clone, Copy)]
struct Question(u8, u8, u8, u8);

// The first byte of an answer. Numbers: they are bytes of the format, and the code has them as `Result<Option<u32>, Refusal>`.
const PRESENT: u8 = 0;

const ABSENT: u8 = 1;

const REFUSED: u8 = 2;

// What answers for each name and kind, and its value (`capability_table`).
#[derive(Drop)]
pub struct Tables {
    pub marks: [u8; NAMES],
    pub values: [u16; VALUES],
}

impl Tables {
    fn keep(&mut self, a: u8, b: u8, kind: Kind, value: u64)
        ensures { (self.new.marks ≡ kept_marks self.old.marks a b (kind_number kind))
            × (self.new.values ≡ kept_values self.old.marks self.old.values a b (kind_number kind) value) }
    {
        keep(&mut self.marks, &mut self.values, a, b, kind, value);
    }
}

// ---- the pass over the fields

// Takes a field into the table, by what it is read as.
fn note_field(read: FieldRead, tables: &mut Tables)
    ensures { NotesRead read tables.old tables.new }
{
    match read {
        FieldRead::Cancel(a, b) => {
            meet(&mut tables.marks, a, b, CANCEL);
        }
        FieldRead::Flag(a, b) => tables.keep(a, b, Kind::Flag, 1),
        FieldRead::Number(a, b, v) => tables.keep(a, b, Kind::Number, v as u64),
        FieldRead::String(a, b, _, n) => tables.keep(a, b, Kind::String, n as u64),
        _ => {}
    }
}

// The same for all fields of the part of the database that starts after a line's names.
fn note_fields(s: &[u8], tables: &mut Tables)
    ensures { NotesTexts (split (line_at s.now 0)) tables.old tables.new }
{
    let mut at = 0;
    loop {
        let Some(Field { read, next, .. }) = next_field(s, at) else {
            return;
        };
        note_field(read, tables);
        at = next;
    }
}

// The same for all fields of the line at a place of a file.
fn note_line(s: &[u8], at: usize, tables: &mut Tables)
    ensures { NotesTexts (fields_of (line_at s.now at)) tables.old tables.new }
{
    let Some(AfterNames { fields, .. }) = after_names(s, at) else {
        return;
    };
    note_fields(&s[fields..], tables);
}

// The same for all fields of a chain.
fn note_chain(db: &[u8], ends: &[usize], c: Chain, tables: &mut Tables)
    requires { c.count ≤ 32 }
    ensures { Notes (joined_fields (contents (files db.now ends.now)) 0 (lines_of c)) tables.old tables.new }
{
    for p in &c.lines[..c.count] {
        note_line(file(db, ends, p.file), p.at, tables);
    }
}

// ---- the answers

// "Status, refusal number, two zeros, and the value as in a listing record."
fn put_parts(out: &mut [u8], at: usize, status: u8, refusal: u8, value: u32)
    ensures { out.new ≡ sets out.old at (status ∷ refusal ∷ 0 ∷ 0 ∷ four_bytes value) }
{
    let [a, b, c, d] = four_bytes(value as u64);
    put_bytes(out, at, &[status, refusal, 0, 0, a, b, c, d]);
}

fn put_answer(out: &mut [u8], at: usize, answer: Result<Option<u32>, Refusal>)
    ensures { out.new ≡ sets out.old at (answer_bytes answer) }
{
    match answer {
        Ok(value) => match value {
            Some(v) => put_parts(out, at, PRESENT, 0, v),
            None => put_parts(out, at, ABSENT, 0, 0),
        },
        Err(r) => put_parts(out, at, REFUSED, r.number(), 0),
    }
}

// "A bad id, kind or fourth byte is refused 2 in its own answer, before what the walk refuses there."
fn answer_one(
    question: Question,
    walked: Result<(), Refusal>,
    tables: &Tables,
) -> Result<Option<u32>, Refusal>
    ensures { Answers question walked tables.now result }
{
    let Question(a, b, k, z) = question;
    if !is_id(a, b) || z != 0 {
        return Err(Refusal::BadId);
    }
    let Some(kind) = Kind::from_number(k) else {
        return Err(Refusal::BadId);
    };
    walked?;
    kept_answer(&tables.marks, &tables.values, a, b, kind)
}

// Answers each question, in order.
fn put_answers(questions: &[u8], walked: Result<(), Refusal>, tables: &Tables, out: &mut [u8])
    requires { length questions.now / 4 * 8 ≤ length out.old }
    ensures { PutAnswers questions.now walked tables.now out.old out.new }
{
    for (i, q) in questions.chunks_exact(QUESTION_SIZE).enumerate() {
        let question = Question(q[0], q[1], q[2], q[3]);
        let answer = answer_one(question, walked, tables);
        put_answer(out, ANSWER_SIZE * i, answer);
    }
}

// Takes all fields of a terminal into the tables, or says why the walk is refused.
fn note_terminal(db: &[u8], ends: &[usize], name: &[u8], tables: &mut Tables) -> Result<(), Refusal>
    requires { (good_ends (files db.now ends.now) ≡ true) × (good_name name.now ≡ true) × (length db.now ≤ 1048576) }
    ensures { NotesTerminal (resolved (contents (files db.now ends.now)) name.now) tables.old result tables.new }
{
    let chain = resolve(db, ends, name)?;
    note_chain(db, ends, chain, tables);
    Ok(())
}

// Answers all questions, for which there is room.
fn answer_all(db: &[u8], ends: &[usize], name: &[u8], questions: &[u8], out: &mut [u8])
    requires ends_value { (good_ends (files db.now ends.now) ≡ true) × (good_name name.now ≡ true) × (length db.now ≤ 1048576) }
    requires questions_in_bounds { length questions.now / 4 * 8 ≤ length out.old }
    ensures { out.new ≡ sets out.old 0
        (batch_answers (resolved (contents (files db.now ends.now)) name.now) questions.now) }
{
    let mut tables = Tables {
        marks: [0u8; NAMES],
        values: [0u16; VALUES],
    };
    let walked = note_terminal(db, ends, name, &mut tables);
    put_answers(questions, walked, &tables, out);
}

// "The whole call is refused with 1, 3, 15 and 9, in that order", and 16 before all others: none of them needs the walk.
pub fn batch(
    db: &[u8],
    ends: &[usize],
    name: &[u8],
    questions: &[u8],
    out: &mut [u8],
) -> Result<usize, Refusal>
    ensures { (result ≡ (batch_outcome (files db.now ends.now) name.now questions.now out.old).answer)
        × (out.new ≡ (batch_outcome (files db.now ends.now) name.now questions.now out.old).buffer)
        × (written_report result ≡ batch_report (files db.now ends.now) name.now questions.now out.old) }
{
    if !are_good_ends(db, ends) {
        return Err(Refusal::BadEnds);
    }
    if !is_good_name(name) {
        return Err(Refusal::BadName);
    }
    if db.len() > MOST_BYTES {
        return Err(Refusal::DatabaseTooLarge);
    }
    if questions.len() % QUESTION_SIZE != 0 {
        return Err(Refusal::PartialQuestion);
    }
    let n = questions.len() / QUESTION_SIZE;
    if n > out.len() / ANSWER_SIZE {
        return Err(Refusal::NoRoom);
    }
    answer_all(db, ends, name, questions, out);
    Ok(n)
}
