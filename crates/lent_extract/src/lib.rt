// The best term and the variants of a root of a table file on a lent slice of term records and a lent slice of name
// entries. Each copies the records and the entries once into arrays of its own, hands them to the call of the same
// name in the crate `extract`, and puts them back. Assumes nothing.
#![tactic(auto)]

ghost use Rattle.answer_rules.specs.Best.{best_at};
ghost use Rattle.answer_rules.specs.Variants.{variants_at};
ghost use Rattle.variant_answers.specs.Kept.{lending};
ghost use Rattle.lent.specs.Records.{lent_store};
ghost use Rattle.lent_extract.specs.Left.{LentBest, LentVariants};

pub mod counted; // counted.rt: best and variants on flat slices, with the counts in the answer

pub use counted::{Chosen, Varied};
use lent::StoreCopy;
use lent_entries::Name;
use refusal::Refusal;
use term_rules::Term;

// The best term of the root: `extract_best_with_sort` of src/extract.rs.
pub fn best(
    file: &[u8],
    sort: u64,
    value: u64,
    ts: &mut [Term],
    ns: &mut [Name],
    terms: usize,
    symbols: usize,
) -> Result<Chosen, Refusal>
    ensures { LentBest ts.old ns.old terms symbols
        (best_at file.now sort value (lent_store ts.old ns.old terms symbols)) result
        ts.new ns.new }
{
    let mut c = StoreCopy::blank();
    lent::copy_of(ts, ns, &mut c);
    let mut records = c.flat.records;
    let mut literals = c.flat.literals;
    let mut names = c.names;
    let best = counted::best(
        file,
        sort,
        value,
        &mut records[..c.numbers],
        &mut literals[..c.flat.room],
        &mut names[..c.bytes],
        terms,
        symbols,
    );
    c.flat.records = records;
    c.flat.literals = literals;
    lent_entries::unload_names(ns, &names);
    lent::unload(ts, &c.flat);
    best
}

// At most `most` variants of the root, their costs and terms in front of the two lists:
// `extract_variants_with_sort` of src/extract.rs.
pub fn variants(
    file: &[u8],
    sort: u64,
    value: u64,
    most: usize,
    ts: &mut [Term],
    ns: &mut [Name],
    terms: usize,
    symbols: usize,
    costs: &mut [u64],
    found: &mut [u64],
) -> Result<Varied, Refusal>
    ensures { LentVariants ts.old ns.old terms symbols
        (variants_at file.now sort value most
        (lending (lent_store ts.old ns.old terms symbols) costs.old
        found.old)) result ts.new ns.new costs.new found.new }
{
    let mut c = StoreCopy::blank();
    lent::copy_of(ts, ns, &mut c);
    let mut records = c.flat.records;
    let mut literals = c.flat.literals;
    let mut names = c.names;
    let kept = counted::variants(
        file,
        sort,
        value,
        most,
        &mut records[..c.numbers],
        &mut literals[..c.flat.room],
        &mut names[..c.bytes],
        terms,
        symbols,
        costs,
        found,
    );
    c.flat.records = records;
    c.flat.literals = literals;
    lent_entries::unload_names(ns, &names);
    lent::unload(ts, &c.flat);
    kept
}
