// The third pass of the repair: which links are removed, and why. A link is a number: its line starts at `ats[k]`, and it leads to the
// line that starts at `tos[k]`, or to NOWHERE. Lists of numbers, lent apart, and no structs or Options: `judge_links` promises its answer,
// and its room to work in, over these lists.
#![tactic(auto)]

ghost use Rattle.std.specs.Prelude.{◌-◌, ◌<◌, ◌≡◌, length, drop, eqb, get_or, position};
ghost use Rattle.spec.specs.Repair.{link_reason};
ghost use Rattle.link_rings.specs.Rings.{found_of, links_of, reasons_of, Starts, Nexts, returns_to};

use spec::MOST_BYTES;

// Where a link leads whose name is not found: past every database.
const NOWHERE: usize = MOST_BYTES + 1;

// The reasons for which a link is removed. 0: it stays. By number: `reasons_of` and the records of the repair have these numbers.
const LOST: u8 = 4;

const CYCLIC: u8 = 5;

// The link of the line that starts at a place.
fn entry_of(ats: &[usize], p: usize) -> Option<usize>
    ensures { result ≡ position (λ a. eqb a p) ats.now }
{
    ats.iter().position(|a| *a == p)
}

// Stores for each link the link of the line that it leads to, or as many as there are.
#[tactic(auto, unfolding(crate::specs::Rings::Nexts))]
fn list_nexts(ats: &[usize], tos: &[usize], nexts: &mut [usize])
    requires tos_len { length tos.now ≡ length ats.now }
    requires nexts_len { length nexts.old ≡ length ats.now }
    ensures { Nexts ats.now tos.now nexts.new (length ats.now) }
{
    for (i, next) in nexts.iter_mut().enumerate() {
        *next = entry_of(ats, tos[i]).unwrap_or(ats.len());
    }
}

// Whether the links from the link k on come back to it. A line before it ends the search: its link is no part of a ring any more.
#[tactic(auto, using(crate::proofs::Walks::walked))]
fn comes_back(nexts: &[usize], k: usize) -> bool
    requires { k < length nexts.now }
    ensures { result ≡ returns_to nexts.now k (length nexts.now - k) (get_or nexts.now k 0) }
{
    let mut at = nexts[k];
    for _ in k..nexts.len() {
        if at == k {
            return true;
        }
        if at < k || at >= nexts.len() {
            return false;
        }
        at = nexts[at];
    }
    false
}

// Why the link k is removed, or 0.
fn judge_link(ats: &[usize], tos: &[usize], nexts: &[usize], k: usize) -> u8
    requires starts { Starts ats.now }
    requires tos_len { length tos.now ≡ length ats.now }
    requires nexts_len { length nexts.now ≡ length ats.now }
    requires nexts { Nexts ats.now tos.now nexts.now (length ats.now) }
    requires k_in_bounds { k < length ats.now }
    ensures { result ≡ link_reason (links_of (drop k ats.now) (drop k tos.now))
        (get_or ats.now k 0) (found_of (get_or tos.now k 0)) }
{
    if tos[k] == NOWHERE {
        LOST
    } else if comes_back(nexts, k) {
        CYCLIC
    } else {
        0
    }
}

// Judges all links. `nexts` is room to work in: afterwards it has for each link the link of the line that it leads to.
pub fn judge_links(ats: &[usize], tos: &[usize], nexts: &mut [usize], reasons: &mut [u8])
    requires starts { Starts ats.now }
    requires tos_len { length tos.now ≡ length ats.now }
    requires nexts_len { length nexts.old ≡ length ats.now }
    requires reasons_len { length reasons.old ≡ length ats.now }
    ensures { (reasons.new ≡ reasons_of (links_of ats.now tos.now))
        × Nexts ats.now tos.now nexts.new (length ats.now) }
{
    list_nexts(ats, tos, nexts);
    for (k, reason) in reasons.iter_mut().enumerate() {
        *reason = judge_link(ats, tos, nexts, k);
    }
}
