// Each call of the store and both texts on lent structs as a step of a run, which holds a store of 1,024 records with
// its counts; a call that adds leaves the counts as they are then. Best and variants are in the module `choices`.
// Assumes nothing.
use lent_entries::Name;
use lent_texts::{lets, plain};
use refusal::Refusal;
use std::cmp::Ordering;
use term::Added;
use term_rules::Term;
use text_whole::LetText;

// A store's records, and how many terms and symbols it has.
#[derive(Clone, Copy)]
pub struct Held {
    pub ts: [Term; 1024],
    pub terms: usize,
    pub symbols: usize,
}

// A store with no term.
pub fn empty() -> Held {
    let none = Term {
        kind: 0,
        symbol: 0,
        count: 0,
        literal: 0,
        children: [0; 8],
    };
    Held {
        ts: [none; 1024],
        terms: 0,
        symbols: 0,
    }
}

// The term that a call has added or found; the store has the counts that the call told.
fn keep(h: &mut Held, added: Added) -> usize {
    h.terms = added.terms;
    h.symbols = added.symbols;
    added.term
}

pub fn add_literal(h: &mut Held, ns: &[Name], literal: i64) -> Result<usize, Refusal> {
    let added = lent_terms::add_literal(&mut h.ts, ns, h.terms, h.symbols, literal)?;
    Ok(keep(h, added))
}

pub fn add_variable(h: &mut Held, ns: &mut [Name], name: &[u8]) -> Result<usize, Refusal> {
    let added = lent_terms::add_variable(&mut h.ts, ns, h.terms, h.symbols, name)?;
    Ok(keep(h, added))
}

pub fn add_application(
    h: &mut Held,
    ns: &mut [Name],
    name: &[u8],
    children: &[u64],
) -> Result<usize, Refusal> {
    let added = lent_terms::add_application(&mut h.ts, ns, h.terms, h.symbols, name, children)?;
    Ok(keep(h, added))
}

pub fn find_literal(h: &Held, ns: &[Name], literal: i64) -> Result<usize, Refusal> {
    lent_terms::find_literal(&h.ts, ns, h.terms, h.symbols, literal)
}

pub fn find_variable(h: &Held, ns: &[Name], name: &[u8]) -> Result<usize, Refusal> {
    lent_terms::find_variable(&h.ts, ns, h.terms, h.symbols, name)
}

pub fn find_application(
    h: &Held,
    ns: &[Name],
    name: &[u8],
    children: &[u64],
) -> Result<usize, Refusal> {
    lent_terms::find_application(&h.ts, ns, h.terms, h.symbols, name, children)
}

pub fn size(h: &Held, ns: &[Name]) -> Result<usize, Refusal> {
    lent_terms::size(&h.ts, ns, h.terms, h.symbols)
}

pub fn get(h: &Held, ns: &[Name], i: usize) -> Result<Term, Refusal> {
    lent_terms::get(&h.ts, ns, h.terms, h.symbols, i)
}

pub fn compare(h: &Held, ns: &[Name], i: usize, j: usize) -> Result<Ordering, Refusal> {
    lent_terms::compare(&h.ts, ns, h.terms, h.symbols, i, j)
}

pub fn sort(h: &Held, ns: &[Name], list: &mut [u64]) -> Result<(), Refusal> {
    lent_terms::sort(&h.ts, ns, h.terms, h.symbols, list)
}

pub fn plain_text(h: &Held, ns: &[Name], term: usize, out: &mut [u8]) -> Result<usize, Refusal> {
    plain::plain_text(&h.ts, ns, h.terms, h.symbols, term, out)
}

pub fn let_text(
    h: &Held,
    ns: &[Name],
    term: usize,
    prefix: &[u8],
    hint: &[u8],
    start: u64,
    bare: bool,
    out: &mut [u8],
) -> Result<LetText, Refusal> {
    lets::let_text(
        &h.ts, ns, h.terms, h.symbols, term, prefix, hint, start, bare, out,
    )
}
