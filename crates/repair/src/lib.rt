// Repair (document 02, Ask 2): the mended database, and a record for each thing removed.
#![tactic(auto)]

ghost use Rattle.std.specs.Prelude.{◌+◌, ◌≤◌, ◌<◌, ◌≡◌, length};
ghost use Rattle.spec.specs.Answers.{repaired_report};
ghost use Rattle.spec.specs.Lines.{line_at};
ghost use Rattle.spec.specs.Repair.{lines_of, left, mended, put_mended, repair_outcome, repair_report};
ghost use Rattle.link_list.specs.Listing.{link_starts, link_names, names_at};
ghost use Rattle.mended_lines.specs.Lines.{LineMended};
ghost use Rattle.repair.specs.Answers.{Judged, ReasonFound, Delivers};

use lines::next_line;
use link_list::{find_reasons, list_links};
use mended_fields::RECORD_SIZE;
use mended_lines::mend_line;
use spec::{Amounts, MOST_BYTES, MOST_LINES, Refusal};

// Why the link of a line is removed, 0 if it stays or there is none, and the number of the next link. A number: `mend_line` and the records
// have it as one, and its contract tells 0 for a link that stays.
#[derive(Clone, Copy)]
pub struct LineReason {
    pub reason: u8,
    pub next: usize,
}

// The reason of the line at a place, which has the link k or none.
fn line_reason(ats: &[usize], reasons: &[u8], k: usize, at: usize) -> LineReason
    requires { length reasons.now ≡ length ats.now }
    ensures { ReasonFound ats.now reasons.now k at result }
{
    if k < ats.len() && ats[k] == at {
        LineReason {
            reason: reasons[k],
            next: k + 1,
        }
    } else {
        LineReason { reason: 0, next: k }
    }
}

// Mends all lines, one after the other. What has no room is not stored.
fn mend_lines(
    db: &[u8],
    ats: &[usize],
    reasons: &[u8],
    text: &mut [u8],
    records: &mut [u8],
) -> Amounts
    requires { Judged db.now ats.now reasons.now }
    ensures { LineMended (mended db.now) text.old 0 text.new records.old 0 records.new result }
{
    let mut at = 0;
    let mut number = 0;
    let mut k = 0;
    let mut bytes = 0;
    let mut count = 0;
    loop {
        let line = line_reason(ats, reasons, k, at);
        let amounts = mend_line(
            db,
            at,
            number,
            line.reason,
            text,
            bytes,
            records,
            count * RECORD_SIZE,
        );
        bytes += amounts.bytes;
        count += amounts.records;
        match next_line(db, at) {
            Some(next) => {
                at = next;
                number += 1;
                k = line.next;
            }
            None => {
                return Amounts {
                    bytes,
                    records: count,
                };
            }
        }
    }
}

// What the mended database and its records need.
fn measure(db: &[u8], ats: &[usize], reasons: &[u8]) -> Amounts
    requires { Judged db.now ats.now reasons.now }
    ensures { (result.bytes ≡ length (mended db.now).text) × (result.records ≡ length (mended db.now).records) }
{
    let mut text = [0u8; 1];
    let mut records = [0u8; 1];
    mend_lines(db, ats, reasons, &mut text, &mut records)
}

// "No room in either buffer is 9": nothing is stored before both have room.
fn put_mended(
    db: &[u8],
    ats: &[usize],
    reasons: &[u8],
    text: &mut [u8],
    records: &mut [u8],
) -> Result<Amounts, Refusal>
    requires { Judged db.now ats.now reasons.now }
    ensures { Delivers (put_mended (mended db.now) text.old records.old) result text.new records.new }
{
    let need = measure(db, ats, reasons);
    let most = records.len() / RECORD_SIZE;
    if need.bytes > text.len() || need.records > most {
        return Err(Refusal::NoRoom);
    }
    mend_lines(db, ats, reasons, text, records);
    Ok(need)
}

// The links are listed; `names` and `tos` are room to work in. Four lists and no struct: `find_reasons` is lent each of them by itself, two to
// be written anew and one to be read, and only here do the four stand together.
fn repair_listed(
    db: &[u8],
    ats: &[usize],
    names: &mut [usize],
    tos: &mut [usize],
    reasons: &mut [u8],
    text: &mut [u8],
    records: &mut [u8],
) -> Result<Amounts, Refusal>
    requires db_len_bound { length db.now ≤ 1048576 }
    requires ats_value { ats.now ≡ link_starts (left (lines_of db.now)) }
    requires names_value { names_at db.now names.old ≡ link_names (left (lines_of db.now)) }
    requires names_len { length names.old ≡ length ats.now }
    requires tos_len { length tos.old ≡ length ats.now }
    requires reasons_len { length reasons.old ≡ length ats.now }
    ensures { Delivers (put_mended (mended db.now) text.old records.old) result text.new records.new }
{
    find_reasons(db, ats, names, tos, reasons);
    put_mended(db, ats, reasons, text, records)
}

// A database that is small enough, with room for the links of all its lines: 100 KB of the stack.
fn repair_small(db: &[u8], text: &mut [u8], records: &mut [u8]) -> Result<Amounts, Refusal>
    requires { length db.now ≤ 1048576 }
    ensures { Delivers (repair_outcome db.now text.old records.old) result text.new records.new }
{
    let mut ats = [0usize; MOST_LINES];
    let mut names = [0usize; MOST_LINES];
    let mut tos = [0usize; MOST_LINES];
    let mut reasons = [0u8; MOST_LINES];
    let Some(n) = list_links(db, &mut ats, &mut names) else {
        return Err(Refusal::TooManyLines);
    };
    repair_listed(
        db,
        &ats[..n],
        &mut names[..n],
        &mut tos[..n],
        &mut reasons[..n],
        text,
        records,
    )
}

// Writes the mended database to `text`, and a record of 16 bytes for each thing removed to `records`. The order of refusals is 3, 14, 9; a
// refusal changes neither buffer.
pub fn repair(db: &[u8], text: &mut [u8], records: &mut [u8]) -> Result<Amounts, Refusal>
    ensures { (result ≡ (repair_outcome db.now text.old records.old).answer)
        × (repaired_report result ≡ repair_report db.now text.old records.old)
        × (text.new ≡ (repair_outcome db.now text.old records.old).text)
        × (records.new ≡ (repair_outcome db.now text.old records.old).records) }
{
    if db.len() > MOST_BYTES {
        return Err(Refusal::DatabaseTooLarge);
    }
    repair_small(db, text, records)
}
