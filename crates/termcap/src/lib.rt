// The library in one place: the operations of documents 01 and 02 with their answers, the opened reader, and the functions for C, which give each
// result as a number; `termcap_c` exports these under their own names. A slice passes to C as a pointer and a length; the reader has no C
// functions. Each operation over several files comes with the same for a single one that fills the buffer. Each function for C but the finder's
// is one call of a function below, under the same promise word for word; wrong functions are tried there, too, where a crate is cheap to prove
// (decision 112).
//
// A must-fail edit of a finder's function leaves out all sections of this file, so that those are not proved again.
#![tactic(auto)]

mod finder_calls;

ghost use Rattle.std.specs.Prelude.{◌≡◌};
ghost use Rattle.spec.specs.Files.{files, alone};
ghost use Rattle.spec.specs.Questions.{show_report, flag_report, number_report, string_outcome, string_report};
ghost use Rattle.spec.specs.Search.{search_report};
ghost use Rattle.spec.specs.Listing.{list_outcome, list_report, flat_outcome, flat_report};
ghost use Rattle.spec.specs.Batch.{batch_outcome, batch_report};
ghost use Rattle.spec.specs.Repair.{repair_outcome, repair_report};
ghost use Rattle.spec.specs.Sending.{send_outcome, send_report, send_at_outcome, send_at_report, fill_outcome, fill_report, pad_outcome, pad_report};
ghost use Rattle.c_results.specs.Results.{result_of, stored_value, stored_length, stored_second, stored_third, has_star};

// ---- for programs in Rattle ----

pub use batch::batch;
pub use finder::{
    answer as finder_answer, end as finder_end, feed as finder_feed, open as finder_open,
};
pub use finder_calls::{
    termcap_finder_answer, termcap_finder_end, termcap_finder_feed, termcap_finder_open,
};
pub use listing::{flat, list};
pub use name_count::search;
pub use questions::{flag, number, string};
pub use reader::{
    Reader, flag as reader_flag, number as reader_number, open as reader_open, show as reader_show,
};
pub use repair::repair;
pub use sending::{fill, pad, send, send_at};
pub use show::{show, show_part};
pub use spec::finder::Finder;
pub use spec::{Amounts, Finished, Kind, Part, Refusal, Tally};

// ---- Show ----

// "The part of the caller's database that holds the first description with that name": its place in the buffer.
pub fn termcap_show_files(
    db: &[u8],
    ends: &[usize],
    name: &[u8],
    start: &mut u64,
    length: &mut u64,
) -> u32
    ensures { (result ≡ result_of (show_report (files db.now ends.now) name.now))
        × (start.new ≡ stored_value (show_report (files db.now ends.now) name.now) start.old)
        × (length.new ≡ stored_length (show_report (files db.now ends.now) name.now) length.old) }
{
    c_search::show_files(db, ends, name, start, length)
}

pub fn termcap_show(db: &[u8], name: &[u8], start: &mut u64, length: &mut u64) -> u32
    ensures { (result ≡ result_of (show_report (alone db.now) name.now))
        × (start.new ≡ stored_value (show_report (alone db.now) name.now) start.old)
        × (length.new ≡ stored_length (show_report (alone db.now) name.now) length.old) }
{
    c_search::show(db, name, start, length)
}

// ---- the search that counts ----

// "Whether an asked name is found and how many names had bytes compared": a name that is not found is no refusal, and 0 is stored.
pub fn termcap_search_files(
    db: &[u8],
    ends: &[usize],
    name: &[u8],
    found: &mut u64,
    compared: &mut u64,
) -> u32
    ensures { (result ≡ result_of (search_report (files db.now ends.now) name.now))
        × (found.new ≡ stored_value (search_report (files db.now ends.now) name.now) found.old)
        × (compared.new ≡ stored_second (search_report (files db.now ends.now) name.now) compared.old) }
{
    c_search::search_files(db, ends, name, found, compared)
}

pub fn termcap_search(db: &[u8], name: &[u8], found: &mut u64, compared: &mut u64) -> u32
    ensures { (result ≡ result_of (search_report (alone db.now) name.now))
        × (found.new ≡ stored_value (search_report (alone db.now) name.now) found.old)
        × (compared.new ≡ stored_second (search_report (alone db.now) name.now) compared.old) }
{
    c_search::search(db, name, found, compared)
}

// ---- Flag ----

pub fn termcap_flag_files(db: &[u8], ends: &[usize], name: &[u8], id: &[u8], value: &mut u64) -> u32
    ensures { (result ≡ result_of (flag_report (files db.now ends.now) name.now id.now))
        × (value.new
        ≡ stored_value (flag_report (files db.now ends.now) name.now id.now) value.old) }
{
    c_questions::flag_files(db, ends, name, id, value)
}

pub fn termcap_flag(db: &[u8], name: &[u8], id: &[u8], value: &mut u64) -> u32
    ensures { (result ≡ result_of (flag_report (alone db.now) name.now id.now))
        × (value.new ≡ stored_value (flag_report (alone db.now) name.now id.now) value.old) }
{
    c_questions::flag(db, name, id, value)
}

// ---- Number ----

pub fn termcap_number_files(
    db: &[u8],
    ends: &[usize],
    name: &[u8],
    id: &[u8],
    value: &mut u64,
) -> u32
    ensures { (result ≡ result_of (number_report (files db.now ends.now) name.now id.now))
        × (value.new
        ≡ stored_value (number_report (files db.now ends.now) name.now id.now) value.old) }
{
    c_questions::number_files(db, ends, name, id, value)
}

pub fn termcap_number(db: &[u8], name: &[u8], id: &[u8], value: &mut u64) -> u32
    ensures { (result ≡ result_of (number_report (alone db.now) name.now id.now))
        × (value.new ≡ stored_value (number_report (alone db.now) name.now id.now) value.old) }
{
    c_questions::number(db, name, id, value)
}

// ---- String ----

pub fn termcap_string_files(
    db: &[u8],
    ends: &[usize],
    name: &[u8],
    id: &[u8],
    out: &mut [u8],
    count: &mut u64,
) -> u32
    ensures { (result ≡ result_of (string_report (files db.now ends.now) name.now id.now out.old))
        × (out.new ≡ (string_outcome (files db.now ends.now) name.now id.now out.old).buffer)
        × (count.new
        ≡ stored_value (string_report (files db.now ends.now) name.now id.now out.old)
        count.old) }
{
    c_questions::string_files(db, ends, name, id, out, count)
}

pub fn termcap_string(db: &[u8], name: &[u8], id: &[u8], out: &mut [u8], count: &mut u64) -> u32
    ensures { (result ≡ result_of (string_report (alone db.now) name.now id.now out.old))
        × (out.new ≡ (string_outcome (alone db.now) name.now id.now out.old).buffer)
        × (count.new
        ≡ stored_value (string_report (alone db.now) name.now id.now out.old) count.old) }
{
    c_questions::string(db, name, id, out, count)
}

// ---- List ----

pub fn termcap_list_files(
    db: &[u8],
    ends: &[usize],
    name: &[u8],
    out: &mut [u8],
    records: &mut u64,
) -> u32
    ensures { (result ≡ result_of (list_report (files db.now ends.now) name.now out.old))
        × (out.new ≡ (list_outcome (files db.now ends.now) name.now out.old).buffer)
        × (records.new
        ≡ stored_value (list_report (files db.now ends.now) name.now out.old) records.old) }
{
    c_listing::list_files(db, ends, name, out, records)
}

pub fn termcap_list(db: &[u8], name: &[u8], out: &mut [u8], records: &mut u64) -> u32
    ensures { (result ≡ result_of (list_report (alone db.now) name.now out.old))
        × (out.new ≡ (list_outcome (alone db.now) name.now out.old).buffer)
        × (records.new ≡ stored_value (list_report (alone db.now) name.now out.old) records.old) }
{
    c_listing::list(db, name, out, records)
}

// ---- Flat ----

pub fn termcap_flat_files(
    db: &[u8],
    ends: &[usize],
    name: &[u8],
    out: &mut [u8],
    count: &mut u64,
) -> u32
    ensures { (result ≡ result_of (flat_report (files db.now ends.now) name.now out.old))
        × (out.new ≡ (flat_outcome (files db.now ends.now) name.now out.old).buffer)
        × (count.new
        ≡ stored_value (flat_report (files db.now ends.now) name.now out.old) count.old) }
{
    c_listing::flat_files(db, ends, name, out, count)
}

pub fn termcap_flat(db: &[u8], name: &[u8], out: &mut [u8], count: &mut u64) -> u32
    ensures { (result ≡ result_of (flat_report (alone db.now) name.now out.old))
        × (out.new ≡ (flat_outcome (alone db.now) name.now out.old).buffer)
        × (count.new ≡ stored_value (flat_report (alone db.now) name.now out.old) count.old) }
{
    c_listing::flat(db, name, out, count)
}

// ---- a batch ----

// "A buffer of 4-byte questions": an answer of eight bytes for each, in `out`.
pub fn termcap_batch_files(
    db: &[u8],
    ends: &[usize],
    name: &[u8],
    questions: &[u8],
    out: &mut [u8],
    answers: &mut u64,
) -> u32
    ensures { (result ≡ result_of (batch_report (files db.now ends.now) name.now questions.now out.old))
        × (out.new ≡ (batch_outcome (files db.now ends.now) name.now questions.now out.old).buffer)
        × (answers.new
        ≡ stored_value (batch_report (files db.now ends.now) name.now questions.now out.old)
        answers.old) }
{
    c_listing::batch_files(db, ends, name, questions, out, answers)
}

pub fn termcap_batch(
    db: &[u8],
    name: &[u8],
    questions: &[u8],
    out: &mut [u8],
    answers: &mut u64,
) -> u32
    ensures { (result ≡ result_of (batch_report (alone db.now) name.now questions.now out.old))
        × (out.new ≡ (batch_outcome (alone db.now) name.now questions.now out.old).buffer)
        × (answers.new
        ≡ stored_value (batch_report (alone db.now) name.now questions.now out.old) answers.old) }
{
    c_listing::batch(db, name, questions, out, answers)
}

// ---- Repair ----

// "A mended database, and a 16-byte record for each thing removed": `out` gets the one, `records` the others.
pub fn termcap_repair(
    db: &[u8],
    out: &mut [u8],
    records: &mut [u8],
    count: &mut u64,
    removed: &mut u64,
) -> u32
    ensures { (result ≡ result_of (repair_report db.now out.old records.old))
        × (out.new ≡ (repair_outcome db.now out.old records.old).text)
        × (records.new ≡ (repair_outcome db.now out.old records.old).records)
        × (count.new ≡ stored_value (repair_report db.now out.old records.old) count.old)
        × (removed.new ≡ stored_second (repair_report db.now out.old records.old) removed.old) }
{
    c_repair::repair(db, out, records, count, removed)
}

// ---- Send ----

pub fn termcap_send(
    command: &[u8],
    lines: u64,
    speed: u64,
    pad: u8,
    out: &mut [u8],
    count: &mut u64,
) -> u32
    ensures { (result ≡ result_of (send_report command.now lines speed pad out.old))
        × (out.new ≡ (send_outcome command.now lines speed pad out.old).buffer)
        × (count.new ≡ stored_value (send_report command.now lines speed pad out.old) count.old) }
{
    c_sending::send(command, lines, speed, pad, out, count)
}

// ---- Send at ----

pub fn termcap_send_at(
    command: &[u8],
    row: u64,
    column: u64,
    back: &[u8],
    up: &[u8],
    lines: u64,
    speed: u64,
    pad: u8,
    out: &mut [u8],
    count: &mut u64,
) -> u32
    ensures { (result ≡ result_of (send_at_report command.now row column back.now up.now lines speed pad out.old))
        × (out.new ≡ (send_at_outcome command.now row column back.now up.now lines speed pad out.old).buffer)
        × (count.new
        ≡ stored_value (send_at_report command.now row column back.now up.now lines speed pad out.old)
        count.old) }
{
    c_sending::send_at(
        command, row, column, back, up, lines, speed, pad, out, count,
    )
}

// ---- the first half of Send at ----

// The first half of Send at: `out` gets the finished bytes, of which there are `count`; their delay is in tenths of a millisecond, before its star.
pub fn termcap_fill(
    command: &[u8],
    row: u64,
    column: u64,
    back: &[u8],
    up: &[u8],
    out: &mut [u8],
    delay: &mut u64,
    star: &mut u64,
    count: &mut u64,
) -> u32
    ensures { (result ≡ result_of (fill_report command.now row column back.now up.now out.old))
        × (out.new ≡ (fill_outcome command.now row column back.now up.now out.old).buffer)
        × (delay.new
        ≡ stored_value (fill_report command.now row column back.now up.now out.old) delay.old)
        × (star.new
        ≡ stored_second (fill_report command.now row column back.now up.now out.old) star.old)
        × (count.new
        ≡ stored_third (fill_report command.now row column back.now up.now out.old) count.old) }
{
    c_sending::fill(command, row, column, back, up, out, delay, star, count)
}

// ---- the second half of Send at ----

// The second half of Send at; any star but 0 is one.
pub fn termcap_pad(
    delay: u64,
    star: u64,
    bytes: &[u8],
    lines: u64,
    speed: u64,
    pad: u8,
    out: &mut [u8],
    count: &mut u64,
) -> u32
    ensures { (result ≡ result_of (pad_report delay (has_star star) bytes.now lines speed pad out.old))
        × (out.new ≡ (pad_outcome delay (has_star star) bytes.now lines speed pad out.old).buffer)
        × (count.new ≡ stored_value (pad_report delay (has_star star) bytes.now lines speed pad out.old) count.old) }
{
    c_sending::pad(delay, star, bytes, lines, speed, pad, out, count)
}

// ---- the end ----
