// The asked name and the asked id: refusals 1 and 2.
#![tactic(auto)]

ghost use Rattle.std.specs.Prelude.{◌≡◌};
ghost use Rattle.spec.specs.Refusals.{good_name, good_id};

use fields::{is_id, is_name_byte};

const MOST_NAME_BYTES: usize = 64;

pub fn is_good_name(name: &[u8]) -> bool
    ensures { result ≡ good_name name.now }
{
    match name.len() {
        1..=MOST_NAME_BYTES => name.iter().all(|b| is_name_byte(*b)),
        _ => false,
    }
}

pub fn is_good_id(id: &[u8]) -> bool
    ensures { result ≡ good_id id.now }
{
    match id {
        [a, b] => is_id(*a, *b),
        _ => false,
    }
}
