// Repair as C takes its result. The C function of `termcap` calls it, under the same promise word for word (decision 112).
#![tactic(auto)]

ghost use Rattle.std.specs.Prelude.{◌≡◌};
ghost use Rattle.spec.specs.Repair.{repair_outcome, repair_report};
ghost use Rattle.c_results.specs.Results.{result_of, stored_value, stored_second};

use c_results::give_repaired;

// "A mended database, and a 16-byte record for each thing removed": `out` gets the one, `records` the others.
pub fn repair(
    db: &[u8],
    out: &mut [u8],
    records: &mut [u8],
    count: &mut u64,
    removed: &mut u64,
) -> u32
    ensures { (result ≡ result_of (repair_report db.now out.old records.old))
        × (out.new ≡ (repair_outcome db.now out.old records.old).text)
        × (records.new ≡ (repair_outcome db.now out.old records.old).records)
        × (count.new ≡ stored_value (repair_report db.now out.old records.old) count.old)
        × (removed.new ≡ stored_second (repair_report db.now out.old records.old) removed.old) }
{
    give_repaired(repair::repair(db, out, records), count, removed)
}
