// Best and variants on a store that lies in flat slices, with the store's counts in the answer. Assumes nothing.
ghost use Rattle.std.specs.Prelude.{◌≡◌};
ghost use Rattle.term_rules.specs.Lent.{store};
ghost use Rattle.answer_rules.specs.Best.{best_at};
ghost use Rattle.answer_rules.specs.Variants.{variants_at};
ghost use Rattle.variant_answers.specs.Kept.{lending};
ghost use Rattle.lent_extract.specs.Counted.{seen_chosen, seen_varied};

use refusal::Refusal;
use term_add::store_mut::StoreMut;

// The cost and the number of the best term, the passes, and how many terms and symbols the store has then.
#[derive(Clone, Copy)]
pub struct Chosen {
    pub cost: u64,
    pub term: usize,
    pub passes: u64,
    pub terms: usize,
    pub symbols: usize,
}

// How many variants are kept, the passes, and how many terms and symbols the store has then.
#[derive(Clone, Copy)]
pub struct Varied {
    pub count: usize,
    pub passes: u64,
    pub terms: usize,
    pub symbols: usize,
}

// The best term of the root.
pub fn best(
    file: &[u8],
    sort: u64,
    value: u64,
    records: &mut [u64],
    literals: &mut [i64],
    names: &mut [u8],
    terms: usize,
    symbols: usize,
) -> Result<Chosen, Refusal>
    ensures { seen_chosen result records.new literals.new names.new terms symbols
        ≡ best_at file.now sort value
        (store records.old literals.old names.old terms symbols) }
{
    let mut store = StoreMut {
        records,
        literals,
        names,
        terms,
        symbols,
    };
    let best = extract::best(file, sort, value, &mut store)?;
    Ok(Chosen {
        cost: best.cost,
        term: best.term,
        passes: best.passes,
        terms: store.terms,
        symbols: store.symbols,
    })
}

// At most `most` variants of the root.
pub fn variants(
    file: &[u8],
    sort: u64,
    value: u64,
    most: usize,
    records: &mut [u64],
    literals: &mut [i64],
    names: &mut [u8],
    terms: usize,
    symbols: usize,
    costs: &mut [u64],
    found: &mut [u64],
) -> Result<Varied, Refusal>
    ensures { seen_varied result terms symbols records.new literals.new names.new costs.new found.new
        ≡ variants_at file.now sort value most
        (lending (store records.old literals.old names.old terms symbols) costs.old found.old) }
{
    let mut store = StoreMut {
        records,
        literals,
        names,
        terms,
        symbols,
    };
    let kept = extract::variants(file, sort, value, most, &mut store, costs, found)?;
    Ok(Varied {
        count: kept.count,
        passes: kept.passes,
        terms: store.terms,
        symbols: store.symbols,
    })
}
