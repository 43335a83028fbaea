// The library for programs in C, and for any language that calls C: the functions of `termcap` under their own names, each one call of it under
// the same promise word for word, in a crate beside it, since an archive exports the functions of one crate (decision 112). A slice passes to
// C as a pointer and a length, and the reader has no C functions.
#![tactic(auto)]

ghost use Rattle.std.specs.Prelude.{◌≡◌};
ghost use Rattle.spec.specs.Files.{files, alone};
ghost use Rattle.spec.specs.Questions.{show_report, flag_report, number_report, string_outcome, string_report};
ghost use Rattle.spec.specs.Search.{search_report};
ghost use Rattle.spec.specs.Listing.{list_outcome, list_report, flat_outcome, flat_report};
ghost use Rattle.spec.specs.Batch.{batch_outcome, batch_report};
ghost use Rattle.spec.specs.Repair.{repair_outcome, repair_report};
ghost use Rattle.spec.specs.Sending.{send_outcome, send_report, send_at_outcome, send_at_report, fill_outcome, fill_report, pad_outcome, pad_report};
ghost use Rattle.c_results.specs.Results.{result_of, stored_value, stored_length, stored_second, stored_third, has_star};
ghost use Rattle.spec.specs.Finder.{opened_finder, open_refusal, turn, feed_turn, end_turn, finder_outcome, finder_report};

use spec::finder::Finder;

// ---- Show ----

#[unsafe(no_mangle)]
pub extern "C" fn termcap_show_files(
    db: &[u8],
    ends: &[usize],
    name: &[u8],
    start: &mut u64,
    length: &mut u64,
) -> u32
    ensures { (result ≡ result_of (show_report (files db.now ends.now) name.now))
        × (start.new ≡ stored_value (show_report (files db.now ends.now) name.now) start.old)
        × (length.new ≡ stored_length (show_report (files db.now ends.now) name.now) length.old) }
{
    termcap::termcap_show_files(db, ends, name, start, length)
}

#[unsafe(no_mangle)]
pub extern "C" fn termcap_show(db: &[u8], name: &[u8], start: &mut u64, length: &mut u64) -> u32
    ensures { (result ≡ result_of (show_report (alone db.now) name.now))
        × (start.new ≡ stored_value (show_report (alone db.now) name.now) start.old)
        × (length.new ≡ stored_length (show_report (alone db.now) name.now) length.old) }
{
    termcap::termcap_show(db, name, start, length)
}

// ---- the search that counts ----

#[unsafe(no_mangle)]
pub extern "C" fn termcap_search_files(
    db: &[u8],
    ends: &[usize],
    name: &[u8],
    found: &mut u64,
    compared: &mut u64,
) -> u32
    ensures { (result ≡ result_of (search_report (files db.now ends.now) name.now))
        × (found.new ≡ stored_value (search_report (files db.now ends.now) name.now) found.old)
        × (compared.new ≡ stored_second (search_report (files db.now ends.now) name.now) compared.old) }
{
    termcap::termcap_search_files(db, ends, name, found, compared)
}

#[unsafe(no_mangle)]
pub extern "C" fn termcap_search(db: &[u8], name: &[u8], found: &mut u64, compared: &mut u64) -> u32
    ensures { (result ≡ result_of (search_report (alone db.now) name.now))
        × (found.new ≡ stored_value (search_report (alone db.now) name.now) found.old)
        × (compared.new ≡ stored_second (search_report (alone db.now) name.now) compared.old) }
{
    termcap::termcap_search(db, name, found, compared)
}

// ---- Flag ----

#[unsafe(no_mangle)]
pub extern "C" fn termcap_flag_files(
    db: &[u8],
    ends: &[usize],
    name: &[u8],
    id: &[u8],
    value: &mut u64,
) -> u32
    ensures { (result ≡ result_of (flag_report (files db.now ends.now) name.now id.now))
        × (value.new
        ≡ stored_value (flag_report (files db.now ends.now) name.now id.now) value.old) }
{
    termcap::termcap_flag_files(db, ends, name, id, value)
}

#[unsafe(no_mangle)]
pub extern "C" fn termcap_flag(db: &[u8], name: &[u8], id: &[u8], value: &mut u64) -> u32
    ensures { (result ≡ result_of (flag_report (alone db.now) name.now id.now))
        × (value.new ≡ stored_value (flag_report (alone db.now) name.now id.now) value.old) }
{
    termcap::termcap_flag(db, name, id, value)
}

// ---- Number ----

#[unsafe(no_mangle)]
pub extern "C" fn termcap_number_files(
    db: &[u8],
    ends: &[usize],
    name: &[u8],
    id: &[u8],
    value: &mut u64,
) -> u32
    ensures { (result ≡ result_of (number_report (files db.now ends.now) name.now id.now))
        × (value.new
        ≡ stored_value (number_report (files db.now ends.now) name.now id.now) value.old) }
{
    termcap::termcap_number_files(db, ends, name, id, value)
}

#[unsafe(no_mangle)]
pub extern "C" fn termcap_number(db: &[u8], name: &[u8], id: &[u8], value: &mut u64) -> u32
    ensures { (result ≡ result_of (number_report (alone db.now) name.now id.now))
        × (value.new ≡ stored_value (number_report (alone db.now) name.now id.now) value.old) }
{
    termcap::termcap_number(db, name, id, value)
}

// ---- String ----

#[unsafe(no_mangle)]
pub extern "C" fn termcap_string_files(
    db: &[u8],
    ends: &[usize],
    name: &[u8],
    id: &[u8],
    out: &mut [u8],
    count: &mut u64,
) -> u32
    ensures { (result ≡ result_of (string_report (files db.now ends.now) name.now id.now out.old))
        × (out.new ≡ (string_outcome (files db.now ends.now) name.now id.now out.old).buffer)
        × (count.new
        ≡ stored_value (string_report (files db.now ends.now) name.now id.now out.old)
        count.old) }
{
    termcap::termcap_string_files(db, ends, name, id, out, count)
}

#[unsafe(no_mangle)]
pub extern "C" fn termcap_string(
    db: &[u8],
    name: &[u8],
    id: &[u8],
    out: &mut [u8],
    count: &mut u64,
) -> u32
    ensures { (result ≡ result_of (string_report (alone db.now) name.now id.now out.old))
        × (out.new ≡ (string_outcome (alone db.now) name.now id.now out.old).buffer)
        × (count.new
        ≡ stored_value (string_report (alone db.now) name.now id.now out.old) count.old) }
{
    termcap::termcap_string(db, name, id, out, count)
}

// ---- List ----

#[unsafe(no_mangle)]
pub extern "C" fn termcap_list_files(
    db: &[u8],
    ends: &[usize],
    name: &[u8],
    out: &mut [u8],
    records: &mut u64,
) -> u32
    ensures { (result ≡ result_of (list_report (files db.now ends.now) name.now out.old))
        × (out.new ≡ (list_outcome (files db.now ends.now) name.now out.old).buffer)
        × (records.new
        ≡ stored_value (list_report (files db.now ends.now) name.now out.old) records.old) }
{
    termcap::termcap_list_files(db, ends, name, out, records)
}

#[unsafe(no_mangle)]
pub extern "C" fn termcap_list(db: &[u8], name: &[u8], out: &mut [u8], records: &mut u64) -> u32
    ensures { (result ≡ result_of (list_report (alone db.now) name.now out.old))
        × (out.new ≡ (list_outcome (alone db.now) name.now out.old).buffer)
        × (records.new ≡ stored_value (list_report (alone db.now) name.now out.old) records.old) }
{
    termcap::termcap_list(db, name, out, records)
}

// ---- Flat ----

#[unsafe(no_mangle)]
pub extern "C" fn termcap_flat_files(
    db: &[u8],
    ends: &[usize],
    name: &[u8],
    out: &mut [u8],
    count: &mut u64,
) -> u32
    ensures { (result ≡ result_of (flat_report (files db.now ends.now) name.now out.old))
        × (out.new ≡ (flat_outcome (files db.now ends.now) name.now out.old).buffer)
        × (count.new
        ≡ stored_value (flat_report (files db.now ends.now) name.now out.old) count.old) }
{
    termcap::termcap_flat_files(db, ends, name, out, count)
}

#[unsafe(no_mangle)]
pub extern "C" fn termcap_flat(db: &[u8], name: &[u8], out: &mut [u8], count: &mut u64) -> u32
    ensures { (result ≡ result_of (flat_report (alone db.now) name.now out.old))
        × (out.new ≡ (flat_outcome (alone db.now) name.now out.old).buffer)
        × (count.new ≡ stored_value (flat_report (alone db.now) name.now out.old) count.old) }
{
    termcap::termcap_flat(db, name, out, count)
}

// ---- a batch ----

#[unsafe(no_mangle)]
pub extern "C" fn termcap_batch_files(
    db: &[u8],
    ends: &[usize],
    name: &[u8],
    questions: &[u8],
    out: &mut [u8],
    answers: &mut u64,
) -> u32
    ensures { (result ≡ result_of (batch_report (files db.now ends.now) name.now questions.now out.old))
        × (out.new ≡ (batch_outcome (files db.now ends.now) name.now questions.now out.old).buffer)
        × (answers.new
        ≡ stored_value (batch_report (files db.now ends.now) name.now questions.now out.old)
        answers.old) }
{
    termcap::termcap_batch_files(db, ends, name, questions, out, answers)
}

#[unsafe(no_mangle)]
pub extern "C" fn termcap_batch(
    db: &[u8],
    name: &[u8],
    questions: &[u8],
    out: &mut [u8],
    answers: &mut u64,
) -> u32
    ensures { (result ≡ result_of (batch_report (alone db.now) name.now questions.now out.old))
        × (out.new ≡ (batch_outcome (alone db.now) name.now questions.now out.old).buffer)
        × (answers.new
        ≡ stored_value (batch_report (alone db.now) name.now questions.now out.old) answers.old) }
{
    termcap::termcap_batch(db, name, questions, out, answers)
}

// ---- Repair ----

#[unsafe(no_mangle)]
pub extern "C" fn termcap_repair(
    db: &[u8],
    out: &mut [u8],
    records: &mut [u8],
    count: &mut u64,
    removed: &mut u64,
) -> u32
    ensures { (result ≡ result_of (repair_report db.now out.old records.old))
        × (out.new ≡ (repair_outcome db.now out.old records.old).text)
        × (records.new ≡ (repair_outcome db.now out.old records.old).records)
        × (count.new ≡ stored_value (repair_report db.now out.old records.old) count.old)
        × (removed.new ≡ stored_second (repair_report db.now out.old records.old) removed.old) }
{
    termcap::termcap_repair(db, out, records, count, removed)
}

// ---- Send ----

#[unsafe(no_mangle)]
pub extern "C" fn termcap_send(
    command: &[u8],
    lines: u64,
    speed: u64,
    pad: u8,
    out: &mut [u8],
    count: &mut u64,
) -> u32
    ensures { (result ≡ result_of (send_report command.now lines speed pad out.old))
        × (out.new ≡ (send_outcome command.now lines speed pad out.old).buffer)
        × (count.new ≡ stored_value (send_report command.now lines speed pad out.old) count.old) }
{
    termcap::termcap_send(command, lines, speed, pad, out, count)
}

// ---- Send at ----

#[unsafe(no_mangle)]
pub extern "C" fn termcap_send_at(
    command: &[u8],
    row: u64,
    column: u64,
    back: &[u8],
    up: &[u8],
    lines: u64,
    speed: u64,
    pad: u8,
    out: &mut [u8],
    count: &mut u64,
) -> u32
    ensures { (result ≡ result_of (send_at_report command.now row column back.now up.now lines speed pad out.old))
        × (out.new ≡ (send_at_outcome command.now row column back.now up.now lines speed pad out.old).buffer)
        × (count.new
        ≡ stored_value (send_at_report command.now row column back.now up.now lines speed pad out.old)
        count.old) }
{
    termcap::termcap_send_at(
        command, row, column, back, up, lines, speed, pad, out, count,
    )
}

// ---- the first half of Send at ----

#[unsafe(no_mangle)]
pub extern "C" fn termcap_fill(
    command: &[u8],
    row: u64,
    column: u64,
    back: &[u8],
    up: &[u8],
    out: &mut [u8],
    delay: &mut u64,
    star: &mut u64,
    count: &mut u64,
) -> u32
    ensures { (result ≡ result_of (fill_report command.now row column back.now up.now out.old))
        × (out.new ≡ (fill_outcome command.now row column back.now up.now out.old).buffer)
        × (delay.new
        ≡ stored_value (fill_report command.now row column back.now up.now out.old) delay.old)
        × (star.new
        ≡ stored_second (fill_report command.now row column back.now up.now out.old) star.old)
        × (count.new
        ≡ stored_third (fill_report command.now row column back.now up.now out.old) count.old) }
{
    termcap::termcap_fill(command, row, column, back, up, out, delay, star, count)
}

// ---- the second half of Send at ----

#[unsafe(no_mangle)]
pub extern "C" fn termcap_pad(
    delay: u64,
    star: u64,
    bytes: &[u8],
    lines: u64,
    speed: u64,
    pad: u8,
    out: &mut [u8],
    count: &mut u64,
) -> u32
    ensures { (result ≡ result_of (pad_report delay (has_star star) bytes.now lines speed pad out.old))
        × (out.new ≡ (pad_outcome delay (has_star star) bytes.now lines speed pad out.old).buffer)
        × (count.new ≡ stored_value (pad_report delay (has_star star) bytes.now lines speed pad out.old) count.old) }
{
    termcap::termcap_pad(delay, star, bytes, lines, speed, pad, out, count)
}

// ---- the finder ----

#[unsafe(no_mangle)]
pub extern "C" fn termcap_finder_open(name: &[u8], finder: &mut Finder) -> u32
    ensures { (finder.new ≡ opened_finder name.now) × (result ≡ open_refusal name.now) }
{
    termcap::termcap_finder_open(name, finder)
}

#[unsafe(no_mangle)]
pub extern "C" fn termcap_finder_feed(finder: &mut Finder, block: &[u8], text: &mut [u8]) -> u32
    ensures { turn result finder.new text.new ≡ feed_turn finder.old text.old block.now }
{
    termcap::termcap_finder_feed(finder, block, text)
}

#[unsafe(no_mangle)]
pub extern "C" fn termcap_finder_end(finder: &mut Finder, text: &mut [u8]) -> u32
    ensures { turn result finder.new text.new ≡ end_turn finder.old text.old }
{
    termcap::termcap_finder_end(finder, text)
}

#[unsafe(no_mangle)]
pub extern "C" fn termcap_finder_answer(
    finder: &Finder,
    text: &[u8],
    out: &mut [u8],
    count: &mut u64,
) -> u32
    ensures { (result ≡ result_of (finder_report finder.now text.now out.old))
        × (out.new ≡ (finder_outcome finder.now text.now out.old).buffer)
        × (count.new ≡ stored_value (finder_report finder.now text.now out.old) count.old) }
{
    termcap::termcap_finder_answer(finder, text, out, count)
}
