// Best and variants for callers in C, on an array of term structs and an array of name entries: all numbers of an
// answer in one struct, with the store's counts as they are then. Assumed of the caller: what include/needlevale.h
// says.
ghost use Rattle.answer_rules.specs.Best.{best_at};
ghost use Rattle.answer_rules.specs.Variants.{variants_at};
ghost use Rattle.variant_answers.specs.Kept.{lending};
ghost use Rattle.lent.specs.Records.{lent_store};
ghost use Rattle.needlevale_c.specs.Choices.{BestLeft, VariantsLeft};

use c_told::choices;
use c_told::choices::{Best, Variants};
use lent_entries::Name;
use term_rules::Term;

// The best term of the root of a table file, built in the lent store.
#[unsafe(no_mangle)]
pub extern "C" fn needlevale_best(
    file: &[u8],
    sort: u64,
    value: u64,
    ts: &mut [Term],
    ns: &mut [Name],
    terms: usize,
    symbols: usize,
) -> Best
    ensures { BestLeft ts.old ns.old terms symbols
        (best_at file.now sort value (lent_store ts.old ns.old terms symbols)) result
        ts.new ns.new }
{
    let r = lent_extract::best(file, sort, value, ts, ns, terms, symbols);
    choices::told_best(r, terms, symbols)
}

// At most `most` variants of the root of a table file, built in the lent store, their costs and terms in front of the
// two lists.
#[unsafe(no_mangle)]
pub extern "C" fn needlevale_variants(
    file: &[u8],
    sort: u64,
    value: u64,
    most: usize,
    ts: &mut [Term],
    ns: &mut [Name],
    terms: usize,
    symbols: usize,
    costs: &mut [u64],
    found: &mut [u64],
) -> Variants
    ensures { VariantsLeft ts.old ns.old terms symbols
        (variants_at file.now sort value most
        (lending (lent_store ts.old ns.old terms symbols) costs.old
        found.old)) result ts.new ns.new costs.new found.new }
{
    let r = lent_extract::variants(
        file, sort, value, most, ts, ns, terms, symbols, costs, found,
    );
    choices::told_variants(r, terms, symbols)
}
