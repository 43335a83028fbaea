// The terminal of a name: refusals 16, 1 and 3, then the walk.
#![tactic(auto)]

ghost use Rattle.spec.specs.Files.{files};
ghost use Rattle.terminal.specs.Answers.{Resolved};

use chain::{Chain, follow_links};
use files::are_good_ends;
use identifiers::is_good_name;
use spec::{MOST_BYTES, Refusal};

// "Ends that fall, or pass the buffer, or more than eight, are the new refusal 16, before all others"; "limit 3 is for all of it". The
// database, its ends and the name stay three arguments, here and in the functions that call this: each is lent by itself.
pub fn resolve(db: &[u8], ends: &[usize], name: &[u8]) -> Result<Chain, Refusal>
    ensures { Resolved (files db.now ends.now) name.now result }
{
    if !are_good_ends(db, ends) {
        return Err(Refusal::BadEnds);
    }
    if !is_good_name(name) {
        return Err(Refusal::BadName);
    }
    if db.len() > MOST_BYTES {
        return Err(Refusal::DatabaseTooLarge);
    }
    follow_links(db, ends, name)
}
