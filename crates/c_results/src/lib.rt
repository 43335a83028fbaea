// What the C functions return and store for an answer: 0 and its values, 255 where it has none, or the number of its refusal.
#![tactic(auto)]

ghost use Rattle.std.specs.Prelude.{◌≡◌};
ghost use Rattle.spec.specs.Choice.{pick};
ghost use Rattle.spec.specs.Answers.{answer_report, written_report, shown_report, searched_report, repaired_report, filled_report};
ghost use Rattle.c_results.specs.Results.{result_of, stored_value, stored_length, stored_second, stored_third, has_star, Ordered};

use spec::{Amounts, Finished, Part, Refusal, Tally};

// The result of a question; a value is stored if it is present.
pub fn give_answer(a: Result<Option<u32>, Refusal>, value: &mut u64) -> u32
    ensures { (result ≡ result_of (answer_report a)) × (value.new ≡ stored_value (answer_report a) value.old) }
{
    match a {
        Ok(given) => match given {
            Some(v) => {
                *value = v as u64;
                0
            }
            None => 255,
        },
        Err(r) => r.number() as u32,
    }
}

// The result of an operation with output; the count is stored if it is accepted.
pub fn give_count(w: Result<usize, Refusal>, count: &mut u64) -> u32
    ensures { (result ≡ result_of (written_report w)) × (count.new ≡ stored_value (written_report w) count.old) }
{
    match w {
        Ok(n) => {
            *count = n as u64;
            0
        }
        Err(refused) => refused.number() as u32,
    }
}

// The result of Show: where the part starts, and its length.
pub fn give_part(s: Result<Part, Refusal>, start: &mut u64, length: &mut u64) -> u32
    requires { Ordered s }
    ensures { (result ≡ result_of (shown_report s))
        × (start.new ≡ stored_value (shown_report s) start.old)
        × (length.new ≡ stored_length (shown_report s) length.old) }
{
    match s {
        Ok(part) => {
            *start = part.from as u64;
            *length = (part.to - part.from) as u64;
            0
        }
        Err(r) => r.number() as u32,
    }
}

// How a yes or no is stored: whether a name is found, and a star.
fn bit(yes: bool) -> u64
    ensures { result ≡ pick yes 1 0 }
{
    yes as u64
}

// The result of the search that counts: a name that is not found is no refusal, and 0 is stored.
pub fn give_search(s: Result<Tally, Refusal>, found: &mut u64, compared: &mut u64) -> u32
    ensures { (result ≡ result_of (searched_report s))
        × (found.new ≡ stored_value (searched_report s) found.old)
        × (compared.new ≡ stored_second (searched_report s) compared.old) }
{
    match s {
        Ok(tally) => {
            *found = bit(tally.found);
            *compared = tally.compared as u64;
            0
        }
        Err(r) => r.number() as u32,
    }
}

// The result of Repair: the bytes of the mended database, and the number of records.
pub fn give_repaired(a: Result<Amounts, Refusal>, count: &mut u64, removed: &mut u64) -> u32
    ensures { (result ≡ result_of (repaired_report a))
        × (count.new ≡ stored_value (repaired_report a) count.old)
        × (removed.new ≡ stored_second (repaired_report a) removed.old) }
{
    match a {
        Ok(amounts) => {
            *count = amounts.bytes as u64;
            *removed = amounts.records as u64;
            0
        }
        Err(r) => r.number() as u32,
    }
}

// Whether a number is taken for a star: any but 0 is.
pub fn has_star(star: u64) -> bool
    ensures { result ≡ has_star star }
{
    star != 0
}

// The result of the first half of Send at: the delay, its star, and the count of the finished bytes.
pub fn give_filled(
    a: Result<Finished, Refusal>,
    delay: &mut u64,
    star: &mut u64,
    count: &mut u64,
) -> u32
    ensures { (result ≡ result_of (filled_report a))
        × (delay.new ≡ stored_value (filled_report a) delay.old)
        × (star.new ≡ stored_second (filled_report a) star.old)
        × (count.new ≡ stored_third (filled_report a) count.old) }
{
    match a {
        Ok(f) => {
            *delay = f.delay as u64;
            *star = bit(f.star);
            *count = f.count as u64;
            0
        }
        Err(r) => r.number() as u32,
    }
}
