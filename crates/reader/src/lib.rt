// "An opened reader keeps the database it was opened on and serves Show, Flag and Number from it with equal answers and refusals; opening
// itself refuses nothing." It keeps the files' ends, too; bad ones are refused with each question. Show, Flag and Number are each one call of
// `show` or `questions`; Show stores the number of its refusal as `show::show` does, which tells why.
#![tactic(auto)]

ghost use Rattle.std.specs.Prelude.{◌≡◌};
ghost use Rattle.spec.specs.Files.{files};
ghost use Rattle.spec.specs.Answers.{answer_report};
ghost use Rattle.spec.specs.Questions.{show_answer, show_report, OwnPart, flag_answer, flag_report, number_answer, number_report};

use spec::Refusal;

#[derive(Clone, Copy)]
pub struct Reader<'a, 'e> {
    pub db: &'a [u8],
    pub ends: &'e [usize],
}

// What a reader keeps of a database: all of it, where it stands. A function of its own, so that wrong ones can be tried (decision 45).
fn kept<'a>(db: &'a [u8]) -> &'a [u8]
    ensures { result ≡ db.entry }
{
    &db[0..]
}

pub fn open<'a, 'e>(db: &'a [u8], ends: &'e [usize]) -> Reader<'a, 'e>
    ensures { (result.db ≡ db.entry) × (result.ends ≡ ends.entry) }
{
    Reader { db: kept(db), ends }
}

pub fn show<'a, 'e>(r: Reader<'a, 'e>, name: &[u8], refusal: &mut u8) -> &'a [u8]
    ensures { OwnPart r.entry.db (show_answer (files r.entry.db.now r.entry.ends.now) name.now) result
        × (refusal.new ≡ (show_report (files r.entry.db.now r.entry.ends.now) name.now).refusal) }
{
    show::show(r.db, r.ends, name, refusal)
}

pub fn flag<'a, 'e>(r: Reader<'a, 'e>, name: &[u8], id: &[u8]) -> Result<Option<u32>, Refusal>
    ensures { (result ≡ flag_answer (files r.entry.db.now r.entry.ends.now) name.now id.now)
        × (answer_report result ≡ flag_report (files r.entry.db.now r.entry.ends.now) name.now id.now) }
{
    questions::flag(r.db, r.ends, name, id)
}

pub fn number<'a, 'e>(r: Reader<'a, 'e>, name: &[u8], id: &[u8]) -> Result<Option<u32>, Refusal>
    ensures { (result ≡ number_answer (files r.entry.db.now r.entry.ends.now) name.now id.now)
        × (answer_report result ≡ number_report (files r.entry.db.now r.entry.ends.now) name.now id.now) }
{
    questions::number(r.db, r.ends, name, id)
}
