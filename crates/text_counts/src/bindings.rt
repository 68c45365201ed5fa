// Which terms are bound in a let text, in which order, met at which indent.
ghost use Rattle.std.specs.Prelude.{◌≡◌, ◌<◌, ◌≤◌, length};
ghost use Rattle.text_counts.specs.Tallies.{Linked};
ghost use Rattle.text_counts.specs.Met.{Ready, Done, flag_of, Marked, Blank, AllMet};
ghost use Rattle.text_counts.specs.Loans.{SameLoans, SameLengths};

// What has been bound so far, in tables that are lent: the first `count` bindings by term and indent, and for each term
// its place, which is 0 without a binding, else one more than the binding's number.
#[derive(Drop)]
pub struct Found<'a> {
    pub places: &'a mut [u64],
    pub terms: &'a mut [u64],
    pub indents: &'a mut [u64],
    pub count: usize,
}

// Term `t` is met at indent `i`: its children first, then itself if it is to be bound (`src/termdag.rs`,
// to_string_with_let).
pub fn meet(records: &[u64], wanted: &[u64], found: &mut Found, n: usize, i: usize, t: usize)
    requires ready { Ready records.now wanted.now found.old.places.now found.old.terms.now found.old.indents.now
        n found.old.count i t }
    ensures loans { SameLoans found.old found.new }
    ensures long { SameLengths found.old found.new }
    ensures done { Done records.now wanted.now found.old.terms.now found.old.indents.now found.old.count i t
        found.new.places.now found.new.terms.now found.new.indents.now found.new.count }
{
    if 0 < found.places[t] {
        return;
    }
    let ks = term_layout::children_of(records, t);
    for k in ks {
        meet(records, wanted, found, n, i + 2, *k as usize);
    }
    if wanted[t] == 0 {
        return;
    }
    let b = found.count;
    found.places[t] = b as u64 + 1;
    found.terms[b] = t as u64;
    found.indents[b] = i as u64;
    found.count = b + 1;
}

// Whether a term is to be bound: count over 1 and size at least 4.
#[tactic(auto, unfolding(crate::specs::Met::flag_of))]
fn flag(count: u64, size: u64) -> u64
    ensures { result ≡ flag_of count size }
{
    if count <= 1 {
        return 0;
    }
    if size < 4 {
        return 0;
    }
    1
}

// Turns the counts of the first `n` terms into flags.
fn mark(counts: &mut [u64], sizes: &[u64], n: usize)
    requires n_bound { n ≤ 1024 }
    requires n_in_bounds { (n ≤ length counts.old) × (n ≤ length sizes.now) }
    ensures { Marked counts.old sizes.now counts.new n }
{
    for t in 0..n {
        counts[t] = flag(counts[t], sizes[t]);
    }
}

// Finds the bindings of the last of the first `n` terms, from tables of zeros.
pub fn bind(records: &[u64], counts: &mut [u64], sizes: &mut [u64], found: &mut Found, n: usize)
    requires linked { Linked records.now n }
    requires n_nonzero { 0 < n }
    requires blank { Blank counts.old sizes.old found.old.places.now found.old.terms.now found.old.indents.now n }
    ensures loans { SameLoans found.old found.new }
    ensures long { SameLengths found.old found.new }
    ensures all_met { AllMet records.now found.new.places.now found.new.terms.now found.new.indents.now
        n found.new.count }
{
    found.count = 0;
    crate::count(counts, records, n);
    crate::size(sizes, records, n);
    mark(counts, sizes, n);
    meet(records, counts, found, n, 0, n - 1);
}
