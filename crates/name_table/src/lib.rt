// A table of names, for a search by halving: the name j has the `lens[j]` bytes from 64 j on, and `order` lists the names. The contracts
// do not ask that the list be sorted, or that it have every name: a text is found, or not, by its bytes alone, and what is found is the
// text. How many steps that takes is the list's affair. The three are lent apart: `slot_of` and `list_names`, which are public, take them so,
// and promise what becomes of `order` alone.
#![tactic(auto)]

ghost use Rattle.std.specs.Prelude.{◌+◌, ◌*◌, ◌-◌, ◌≤◌, ◌<◌, ◌≡◌, length};
ghost use Rattle.name_table.specs.Table.{Table, AtMost, text_of, before, place_in, slot_of, inserted, listed, listing, Lists};

// The room of a name in the table.
pub const NAME_BYTES: usize = 64;

// The text of the name j.
fn text_of<'a>(bytes: &'a [u8], lens: &[usize], j: usize) -> &'a [u8]
    requires j_in_bounds { j < length lens.now }
    requires bytes_len { length bytes.now ≡ length lens.now * 64 }
    requires at_most { AtMost 64 lens.now }
    ensures { result.now ≡ text_of bytes.now lens.now j }
{
    let from = j * NAME_BYTES;
    &bytes[from..from + lens[j]]
}

// Whether a text comes before another. Not by `<` of slices: tried, and Repair takes 23% more instructions where names begin alike, and
// over twice as many where they are empty.
fn is_before(a: &[u8], b: &[u8]) -> bool
    ensures { result ≡ before a.now b.now }
{
    for (i, y) in b.iter().enumerate() {
        if i >= a.len() {
            return true;
        }
        if a[i] != *y {
            return a[i] < *y;
        }
    }
    false
}

// Where halving the first `count` of the list ends: behind those that come before the text, if the list is sorted. No `partition_point`:
// it asks for a sorted list, and which place it finds is its own affair.
fn place_in(bytes: &[u8], lens: &[usize], order: &[usize], count: usize, name: &[u8]) -> usize
    requires table { Table bytes.now lens.now order.now }
    requires count_in_bounds { count ≤ length order.now }
    ensures { (result ≡ place_in bytes.now lens.now order.now count name.now) × (result ≤ count) }
{
    let mut low = 0;
    let mut high = count;
    while low < high {
        let mid = low + (high - low) / 2;
        let j = order[mid];
        if is_before(text_of(bytes, lens, j), name) {
            low = mid + 1;
        } else {
            high = mid;
        }
    }
    low
}

// The name that is the text, or a number past all names. No Option: what is proved of links speaks of the number `slot_of` of specs/Table.
pub fn slot_of(bytes: &[u8], lens: &[usize], order: &[usize], count: usize, name: &[u8]) -> usize
    requires table { Table bytes.now lens.now order.now }
    requires count_in_bounds { count ≤ length order.now }
    ensures { result ≡ slot_of bytes.now lens.now order.now count name.now }
{
    let at = place_in(bytes, lens, order, count, name);
    if at < count && text_of(bytes, lens, order[at]) == name {
        order[at]
    } else {
        lens.len()
    }
}

// Puts j into the first `count` of the list, at a place.
fn insert(order: &mut [usize], count: usize, at: usize, j: usize)
    requires count_in_bounds { count < length order.old }
    requires at_le_count { at ≤ count }
    ensures { order.new ≡ inserted order.old count at j }
{
    order.copy_within(at..count, at + 1);
    order[at] = j;
}

// Lists the name j, if no name that is listed is the same, and answers how many are listed then.
fn list_name(bytes: &[u8], lens: &[usize], order: &mut [usize], count: usize, j: usize) -> usize
    requires table { Table bytes.now lens.now order.old }
    requires count_le_j { count ≤ j }
    requires j_in_bounds { j < length lens.now }
    ensures { Lists order.new result (listed bytes.now lens.now j order.old count)
        × (result ≤ j + 1) × Table bytes.now lens.now order.new }
{
    let name = text_of(bytes, lens, j);
    if slot_of(bytes, lens, order, count, name) < lens.len() {
        return count;
    }
    let at = place_in(bytes, lens, order, count, name);
    insert(order, count, at, j);
    count + 1
}

// Lists the names in order, equal ones once, and answers how many are listed.
pub fn list_names(bytes: &[u8], lens: &[usize], order: &mut [usize]) -> usize
    requires { Table bytes.now lens.now order.old }
    ensures { Lists order.new result (listing bytes.now lens.now order.old (length lens.now))
        × (result ≤ length order.new) × Table bytes.now lens.now order.new }
{
    let mut count = 0;
    for j in 0..lens.len() {
        count = list_name(bytes, lens, order, count, j);
    }
    count
}
