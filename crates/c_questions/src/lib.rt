// Flag, Number and String as C takes their results: over several files, and over a single one that fills the buffer, for the C interface has
// both. The C functions of `termcap` call these, under the same promises word for word (decision 112).
#![tactic(auto)]

ghost use Rattle.std.specs.Prelude.{◌≡◌};
ghost use Rattle.spec.specs.Files.{files, alone};
ghost use Rattle.spec.specs.Questions.{flag_report, number_report, string_outcome, string_report};
ghost use Rattle.c_results.specs.Results.{result_of, stored_value};

use c_results::give_answer;

pub fn flag_files(db: &[u8], ends: &[usize], name: &[u8], id: &[u8], value: &mut u64) -> u32
    ensures { (result ≡ result_of (flag_report (files db.now ends.now) name.now id.now))
        × (value.new
        ≡ stored_value (flag_report (files db.now ends.now) name.now id.now) value.old) }
{
    give_answer(questions::flag(db, ends, name, id), value)
}

pub fn flag(db: &[u8], name: &[u8], id: &[u8], value: &mut u64) -> u32
    ensures { (result ≡ result_of (flag_report (alone db.now) name.now id.now))
        × (value.new ≡ stored_value (flag_report (alone db.now) name.now id.now) value.old) }
{
    let ends = [db.len()];
    flag_files(db, &ends, name, id, value)
}

pub fn number_files(db: &[u8], ends: &[usize], name: &[u8], id: &[u8], value: &mut u64) -> u32
    ensures { (result ≡ result_of (number_report (files db.now ends.now) name.now id.now))
        × (value.new
        ≡ stored_value (number_report (files db.now ends.now) name.now id.now) value.old) }
{
    give_answer(questions::number(db, ends, name, id), value)
}

pub fn number(db: &[u8], name: &[u8], id: &[u8], value: &mut u64) -> u32
    ensures { (result ≡ result_of (number_report (alone db.now) name.now id.now))
        × (value.new ≡ stored_value (number_report (alone db.now) name.now id.now) value.old) }
{
    let ends = [db.len()];
    number_files(db, &ends, name, id, value)
}

pub fn string_files(
    db: &[u8],
    ends: &[usize],
    name: &[u8],
    id: &[u8],
    out: &mut [u8],
    count: &mut u64,
) -> u32
    ensures { (result ≡ result_of (string_report (files db.now ends.now) name.now id.now out.old))
        × (out.new ≡ (string_outcome (files db.now ends.now) name.now id.now out.old).buffer)
        × (count.new
        ≡ stored_value (string_report (files db.now ends.now) name.now id.now out.old)
        count.old) }
{
    give_answer(questions::string(db, ends, name, id, out), count)
}

pub fn string(db: &[u8], name: &[u8], id: &[u8], out: &mut [u8], count: &mut u64) -> u32
    ensures { (result ≡ result_of (string_report (alone db.now) name.now id.now out.old))
        × (out.new ≡ (string_outcome (alone db.now) name.now id.now out.old).buffer)
        × (count.new
        ≡ stored_value (string_report (alone db.now) name.now id.now out.old) count.old) }
{
    let ends = [db.len()];
    string_files(db, &ends, name, id, out, count)
}
