// Stores into a lent buffer or list. A store past its end is no store, so that one function measures, with an empty part, and writes.
#![tactic(auto)]

ghost use Rattle.std.specs.Prelude.{◌≡◌, ◌+◌, set};
ghost use Rattle.std.proofs.lemmas.List.Edits.{sets};
ghost use Rattle.spec.specs.Listing.{four_bytes};

pub fn put<T: Copy>(list: &mut [T], at: usize, x: T)
    ensures { list.new ≡ set list.old at x }
{
    if at < list.len() {
        list[at] = x;
    }
}

pub fn put_byte(out: &mut [u8], at: usize, b: u8)
    ensures { out.new ≡ set out.old at b }
{
    put(out, at, b);
}

// The byte k places after a place: no sum is formed where there is no room.
pub fn put_after(out: &mut [u8], at: usize, k: usize, b: u8)
    ensures { out.new ≡ set out.old (at + k) b }
{
    if at < out.len() && k < out.len() - at {
        out[at + k] = b;
    }
}

pub fn put_bytes(out: &mut [u8], at: usize, bytes: &[u8])
    ensures { out.new ≡ sets out.old at bytes.now }
{
    for (i, b) in bytes.iter().enumerate() {
        put_after(out, at, i, *b);
    }
}

// The four bytes of a number of 32 bits, high byte first.
pub fn four_bytes(value: u64) -> [u8; 4]
    ensures { result ≡ four_bytes value }
{
    let [_, _, _, _, a, b, c, d] = value.to_be_bytes();
    [a, b, c, d]
}
