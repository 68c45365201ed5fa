// Counts and sizes of the terms up to a root: each term's record is read once for each.
#![tactic(auto)]

ghost use Rattle.std.specs.Prelude.{◌≡◌, ◌+◌, ◌<◌, ◌≤◌, min, length};
ghost use Rattle.text_pieces.specs.Readable.{Inside};
ghost use Rattle.text_counts.specs.Tallies.{Linked, Most, Added, Given, Counts, Sizes, sum_at};

pub mod bindings; // bindings.rt: which terms are bound in a let text, in which order, met at which indent

// One more for each child place.
fn add_places(counts: &mut [u64], ks: &[u64])
    requires inside { Inside (length counts.old) ks.now }
    requires ks_len_bound { length ks.now ≤ 8 }
    requires most { Most 65536 counts.old }
    ensures { Added ks.now counts.old counts.new }
{
    for k in ks {
        counts[*k as usize] += 1;
    }
}

// Term `t`, if it has a count, gives one to each of its child places.
fn give_on(counts: &mut [u64], t: usize, ks: &[u64])
    requires t_in_bounds { t < length counts.old }
    requires inside { Inside (length counts.old) ks.now }
    requires ks_len_bound { length ks.now ≤ 8 }
    requires most { Most 65536 counts.old }
    ensures { Given t ks.now counts.old counts.new }
{
    if counts[t] == 0 {
        return;
    }
    add_places(counts, ks);
}

// The counts of the first `n` terms in the text of the last of them, from it down, so that every parent is passed
// before its children.
pub fn count(counts: &mut [u64], records: &[u64], n: usize)
    requires linked { Linked records.now n }
    requires n_nonzero { 0 < n }
    requires n_in_bounds { n ≤ length counts.old }
    requires most { Most 0 counts.old }
    ensures { Counts records.now counts.new n }
{
    counts[n - 1] = 1;
    for t in (0..n).rev() {
        give_on(counts, t, term_layout::children_of(records, t));
    }
}

// A size from the children's.
fn size_of(sizes: &[u64], ks: &[u64]) -> u64
    requires inside { Inside (length sizes.now) ks.now }
    requires most { Most 4 sizes.now }
    ensures { result ≡ min 4 (1 + sum_at sizes.now ks.now) }
{
    let mut size: u64 = 1;
    for k in ks {
        size = (size + sizes[*k as usize]).min(4);
    }
    size
}

// The sizes of the first `n` terms, children first, 4 for 4 and more.
pub fn size(sizes: &mut [u64], records: &[u64], n: usize)
    requires linked { Linked records.now n }
    requires n_in_bounds { n ≤ length sizes.old }
    requires most { Most 0 sizes.old }
    ensures { Sizes records.now sizes.new n }
{
    for t in 0..n {
        sizes[t] = size_of(sizes, term_layout::children_of(records, t));
    }
}
