// Show, and the search that counts, as C takes their results: over several files, and over a single one that fills the buffer, for the C
// interface has both. The C functions of `termcap` call these, under the same promises word for word (decision 112).
#![tactic(auto)]

ghost use Rattle.std.specs.Prelude.{◌≡◌};
ghost use Rattle.spec.specs.Files.{files, alone};
ghost use Rattle.spec.specs.Questions.{show_report};
ghost use Rattle.spec.specs.Search.{search_report};
ghost use Rattle.c_results.specs.Results.{result_of, stored_value, stored_length, stored_second};

use c_results::{give_part, give_search};

// "The part of the caller's database that holds the first description with that name": its place in the buffer.
pub fn show_files(db: &[u8], ends: &[usize], name: &[u8], start: &mut u64, length: &mut u64) -> u32
    ensures { (result ≡ result_of (show_report (files db.now ends.now) name.now))
        × (start.new ≡ stored_value (show_report (files db.now ends.now) name.now) start.old)
        × (length.new ≡ stored_length (show_report (files db.now ends.now) name.now) length.old) }
{
    give_part(show::show_part(db, ends, name), start, length)
}

pub fn show(db: &[u8], name: &[u8], start: &mut u64, length: &mut u64) -> u32
    ensures { (result ≡ result_of (show_report (alone db.now) name.now))
        × (start.new ≡ stored_value (show_report (alone db.now) name.now) start.old)
        × (length.new ≡ stored_length (show_report (alone db.now) name.now) length.old) }
{
    let ends = [db.len()];
    show_files(db, &ends, name, start, length)
}

// "Whether an asked name is found and how many names had bytes compared": a name that is not found is no refusal, and 0 is stored.
pub fn search_files(
    db: &[u8],
    ends: &[usize],
    name: &[u8],
    found: &mut u64,
    compared: &mut u64,
) -> u32
    ensures { (result ≡ result_of (search_report (files db.now ends.now) name.now))
        × (found.new ≡ stored_value (search_report (files db.now ends.now) name.now) found.old)
        × (compared.new ≡ stored_second (search_report (files db.now ends.now) name.now) compared.old) }
{
    give_search(name_count::search(db, ends, name), found, compared)
}

pub fn search(db: &[u8], name: &[u8], found: &mut u64, compared: &mut u64) -> u32
    ensures { (result ≡ result_of (search_report (alone db.now) name.now))
        × (found.new ≡ stored_value (search_report (alone db.now) name.now) found.old)
        × (compared.new ≡ stored_second (search_report (alone db.now) name.now) compared.old) }
{
    let ends = [db.len()];
    search_files(db, &ends, name, found, compared)
}
