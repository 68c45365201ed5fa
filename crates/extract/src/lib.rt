// The best term of a root of a table file, and its variants: document 01, 'Costs and choice'. (src/extract.rs,
// extract_best_with_sort and extract_variants_with_sort)
// A refusal leaves all that is lent as it was.
#![tactic(auto)]

ghost use Rattle.std.specs.Prelude.{◌≡◌};
ghost use Rattle.term_add.specs.Held.{held, SameLoans};
ghost use Rattle.answer_rules.specs.Best.{best_at};
ghost use Rattle.answer_rules.specs.Variants.{variants_at};
ghost use Rattle.variant_answers.specs.Kept.{lending};
ghost use Rattle.variants_root.specs.Several.{seen_variants};
ghost use Rattle.best_root.specs.Single.{seen_best};

use best_root::Best;
use file_rules::Table;
use refusal::Refusal;
use table_rows::Loaded;
use term_add::store_mut::StoreMut;
use variants_root::Kept;

// The best term of the root: the first fault of the file, else the first of BadRoot, BadStore, NoTerm, TooDear and
// NoRoom, else the cost and the number of the term in the store, which then has it and every term that it had.
pub fn best(file: &[u8], sort: u64, value: u64, store: &mut StoreMut) -> Result<Best, Refusal>
    ensures loans { SameLoans store.old store.new }
    ensures best { seen_best result (held store.new)
        ≡ best_at file.now sort value
        (held store.old) }
{
    let mut table = Table::empty();
    let mut order: [u64; 1024] = [0; 1024];
    let mut flat: [u64; 1024] = [0; 1024];
    let mut heads: [u64; 1024] = [0; 1024];
    let mut starts: [usize; 1025] = [0; 1025];
    let mut children: [u64; 8192] = [0; 8192];
    let loaded = table_rows::load(
        file,
        sort,
        value,
        &mut table,
        &mut order,
        &mut flat,
        &mut heads,
        &mut starts,
        &mut children,
    )?;
    match loaded {
        Loaded::Literal(i) => {
            let terms = store.terms;
            let symbols = store.symbols;
            let records = &mut *store.records;
            let literals = &mut *store.literals;
            let names = &mut *store.names;
            let counted = best_root::of_literal(
                &table.literals,
                i,
                records,
                literals,
                names,
                terms,
                symbols,
            )?;
            store.terms = counted.terms;
            store.symbols = counted.symbols;
            Ok(counted.best)
        }
        Loaded::Class { class, flat: laid } => best_root::of_class(
            &flat,
            &heads,
            &starts,
            &children,
            &order,
            &table.rows.functions,
            &table.functions.names,
            &table.literals,
            class,
            laid.rows,
            laid.children,
            laid.classes,
            store,
        ),
    }
}

// The variants of the root: the first fault of the file, else the first of BadRoot, BadStore, TooDear and NoRoom, else
// how many are kept, at most `most` of a class and one of a literal: their costs at the front of `costs`, and the
// numbers of their terms in the store at the front of `found`.
pub fn variants(
    file: &[u8],
    sort: u64,
    value: u64,
    most: usize,
    store: &mut StoreMut,
    costs: &mut [u64],
    found: &mut [u64],
) -> Result<Kept, Refusal>
    ensures loans { SameLoans store.old store.new }
    ensures variants { seen_variants result (held store.new)
        costs.new found.new
        ≡ variants_at file.now sort value most
        (lending (held store.old)
        costs.old found.old) }
{
    let mut rows = [0u16; table_layout::ROWS];
    let mut ranks = [0u64; 512];
    let mut edges = [0u16; 512];
    let mut prices = [0u64; 1024];
    let mut list = [0u64; 1024];
    let mut labels = [0u8; name::TABLE];
    let mut values = [0i64; 512];
    let root = table_roots::choose_rows(
        file,
        sort,
        value,
        most,
        &store.lent(),
        &mut rows,
        &mut ranks,
        &mut edges,
        &mut prices,
        &mut list,
        &mut labels,
        &mut values,
    )?;
    table_roots::answer_rows(
        root, &rows, &ranks, &edges, &prices, &list, &labels, &values, store, costs, found,
    )
}
