// List, Flat and a batch of questions as C takes their results: over several files, and over a single one that fills the buffer, for the C
// interface has both. The C functions of `termcap` call these, under the same promises word for word (decision 112).
#![tactic(auto)]

ghost use Rattle.std.specs.Prelude.{◌≡◌};
ghost use Rattle.spec.specs.Files.{files, alone};
ghost use Rattle.spec.specs.Listing.{list_outcome, list_report, flat_outcome, flat_report};
ghost use Rattle.spec.specs.Batch.{batch_outcome, batch_report};
ghost use Rattle.c_results.specs.Results.{result_of, stored_value};

use c_results::give_count;

pub fn list_files(db: &[u8], ends: &[usize], name: &[u8], out: &mut [u8], records: &mut u64) -> u32
    ensures { (result ≡ result_of (list_report (files db.now ends.now) name.now out.old))
        × (out.new ≡ (list_outcome (files db.now ends.now) name.now out.old).buffer)
        × (records.new
        ≡ stored_value (list_report (files db.now ends.now) name.now out.old) records.old) }
{
    give_count(listing::list(db, ends, name, out), records)
}

pub fn list(db: &[u8], name: &[u8], out: &mut [u8], records: &mut u64) -> u32
    ensures { (result ≡ result_of (list_report (alone db.now) name.now out.old))
        × (out.new ≡ (list_outcome (alone db.now) name.now out.old).buffer)
        × (records.new ≡ stored_value (list_report (alone db.now) name.now out.old) records.old) }
{
    let ends = [db.len()];
    list_files(db, &ends, name, out, records)
}

pub fn flat_files(db: &[u8], ends: &[usize], name: &[u8], out: &mut [u8], count: &mut u64) -> u32
    ensures { (result ≡ result_of (flat_report (files db.now ends.now) name.now out.old))
        × (out.new ≡ (flat_outcome (files db.now ends.now) name.now out.old).buffer)
        × (count.new
        ≡ stored_value (flat_report (files db.now ends.now) name.now out.old) count.old) }
{
    give_count(listing::flat(db, ends, name, out), count)
}

pub fn flat(db: &[u8], name: &[u8], out: &mut [u8], count: &mut u64) -> u32
    ensures { (result ≡ result_of (flat_report (alone db.now) name.now out.old))
        × (out.new ≡ (flat_outcome (alone db.now) name.now out.old).buffer)
        × (count.new ≡ stored_value (flat_report (alone db.now) name.now out.old) count.old) }
{
    let ends = [db.len()];
    flat_files(db, &ends, name, out, count)
}

// "A buffer of 4-byte questions": an answer of eight bytes for each, in `out`.
pub fn batch_files(
    db: &[u8],
    ends: &[usize],
    name: &[u8],
    questions: &[u8],
    out: &mut [u8],
    answers: &mut u64,
) -> u32
    ensures { (result ≡ result_of (batch_report (files db.now ends.now) name.now questions.now out.old))
        × (out.new ≡ (batch_outcome (files db.now ends.now) name.now questions.now out.old).buffer)
        × (answers.new
        ≡ stored_value (batch_report (files db.now ends.now) name.now questions.now out.old)
        answers.old) }
{
    give_count(batch::batch(db, ends, name, questions, out), answers)
}

pub fn batch(db: &[u8], name: &[u8], questions: &[u8], out: &mut [u8], answers: &mut u64) -> u32
    ensures { (result ≡ result_of (batch_report (alone db.now) name.now questions.now out.old))
        × (out.new ≡ (batch_outcome (alone db.now) name.now questions.now out.old).buffer)
        × (answers.new
        ≡ stored_value (batch_report (alone db.now) name.now questions.now out.old) answers.old) }
{
    let ends = [db.len()];
    batch_files(db, &ends, name, questions, out, answers)
}
