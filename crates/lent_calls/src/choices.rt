// Best and variants on lent structs as steps of a run, which holds a store of 1,024 records with its counts: the
// counts are those that the call told. Assumes nothing.
use crate::steps::Held;
use lent_entries::Name;
use lent_extract::counted::{Chosen, Varied};
use refusal::Refusal;

pub fn best(
    h: &mut Held,
    file: &[u8],
    sort: u64,
    value: u64,
    ns: &mut [Name],
) -> Result<Chosen, Refusal> {
    let best = lent_extract::best(file, sort, value, &mut h.ts, ns, h.terms, h.symbols)?;
    h.terms = best.terms;
    h.symbols = best.symbols;
    Ok(best)
}

pub fn variants(
    h: &mut Held,
    file: &[u8],
    sort: u64,
    value: u64,
    most: usize,
    ns: &mut [Name],
    costs: &mut [u64],
    found: &mut [u64],
) -> Result<Varied, Refusal> {
    let kept = lent_extract::variants(
        file, sort, value, most, &mut h.ts, ns, h.terms, h.symbols, costs, found,
    )?;
    h.terms = kept.terms;
    h.symbols = kept.symbols;
    Ok(kept)
}
