// The store's calls on a lent slice of term records and a lent slice of name entries. Each copies the records and the
// entries once into arrays of its own, hands them to the call of the same name in the crate `term`, and, where it
// adds, puts them back.
#![tactic(auto)]

ghost use Rattle.std.specs.Prelude.{◌≡◌};
ghost use Rattle.term_rules.specs.Lent.{store};
ghost use Rattle.term.specs.Answers.{seen, seen_added, seen_got, seen_sort};
ghost use Rattle.term.specs.Calls.{
  add_literal,
  add_variable,
  add_application,
  find_literal,
  find_variable,
  find_application,
  size_of,
  get_term,
  compare_terms,
  sort_terms,
};
ghost use Rattle.lent.specs.Records.{lent_store};
ghost use Rattle.lent_terms.specs.Lists.{LentAdded};

use lent::StoreCopy;
use lent_entries::Name;
use refusal::Refusal;
use std::cmp::Ordering;
use term::Added;
use term_add::store_mut::StoreMut;
use term_rules::Term;

// How many terms there are.
pub fn size(ts: &[Term], ns: &[Name], terms: usize, symbols: usize) -> Result<usize, Refusal>
    ensures { seen result ≡ size_of (lent_store ts.now ns.now terms symbols) }
{
    let mut c = StoreCopy::blank();
    lent::copy_of(ts, ns, &mut c);
    term::size(&c.lent(terms, symbols))
}

// Gives the literal's number, and adds it if it is not there: `lit` of src/termdag.rs.
pub fn add_literal(
    ts: &mut [Term],
    ns: &[Name],
    terms: usize,
    symbols: usize,
    literal: i64,
) -> Result<Added, Refusal>
    ensures { LentAdded ts.old ns.now terms symbols
        (add_literal (lent_store ts.old ns.now terms symbols) literal) result ts.new
        ns.now }
{
    let mut c = StoreCopy::blank();
    lent::copy_of(ts, ns, &mut c);
    let mut records = c.flat.records;
    let mut literals = c.flat.literals;
    let added = term::add_literal(
        &mut records[..c.numbers],
        &mut literals[..c.flat.room],
        &c.names[..c.bytes],
        terms,
        symbols,
        literal,
    );
    c.flat.records = records;
    c.flat.literals = literals;
    lent::unload(ts, &c.flat);
    added
}

// Adds a variable to a store that lies in flat slices.
fn variable_added(
    records: &mut [u64],
    literals: &mut [i64],
    names: &mut [u8],
    terms: usize,
    symbols: usize,
    name: &[u8],
) -> Result<Added, Refusal>
    ensures { seen_added result records.new literals.new names.new terms symbols
        ≡ add_variable (store records.old literals.old names.old terms symbols) name.now }
{
    let mut store = StoreMut {
        records,
        literals,
        names,
        terms,
        symbols,
    };
    let term = term::add_variable(&mut store, name)?;
    Ok(Added {
        term,
        terms: store.terms,
        symbols: store.symbols,
    })
}

// The same of an application.
fn application_added(
    records: &mut [u64],
    literals: &mut [i64],
    names: &mut [u8],
    terms: usize,
    symbols: usize,
    name: &[u8],
    children: &[u64],
) -> Result<Added, Refusal>
    ensures { seen_added result records.new literals.new names.new terms symbols
        ≡ add_application (store records.old literals.old names.old terms symbols) name.now children.now }
{
    let mut store = StoreMut {
        records,
        literals,
        names,
        terms,
        symbols,
    };
    let term = term::add_application(&mut store, name, children)?;
    Ok(Added {
        term,
        terms: store.terms,
        symbols: store.symbols,
    })
}

// Gives the variable's number, and adds it if it is not there: `var` of src/termdag.rs.
pub fn add_variable(
    ts: &mut [Term],
    ns: &mut [Name],
    terms: usize,
    symbols: usize,
    name: &[u8],
) -> Result<Added, Refusal>
    ensures { LentAdded ts.old ns.old terms symbols
        (add_variable (lent_store ts.old ns.old terms symbols) name.now) result
        ts.new ns.new }
{
    let mut c = StoreCopy::blank();
    lent::copy_of(ts, ns, &mut c);
    let mut records = c.flat.records;
    let mut literals = c.flat.literals;
    let mut names = c.names;
    let added = variable_added(
        &mut records[..c.numbers],
        &mut literals[..c.flat.room],
        &mut names[..c.bytes],
        terms,
        symbols,
        name,
    );
    c.flat.records = records;
    c.flat.literals = literals;
    lent_entries::unload_names(ns, &names);
    lent::unload(ts, &c.flat);
    added
}

// Gives the application's number, and adds it if it is not there: `app` of src/termdag.rs.
pub fn add_application(
    ts: &mut [Term],
    ns: &mut [Name],
    terms: usize,
    symbols: usize,
    name: &[u8],
    children: &[u64],
) -> Result<Added, Refusal>
    ensures { LentAdded ts.old ns.old terms symbols
        (add_application (lent_store ts.old ns.old terms symbols) name.now
        children.now) result
        ts.new ns.new }
{
    let mut c = StoreCopy::blank();
    lent::copy_of(ts, ns, &mut c);
    let mut records = c.flat.records;
    let mut literals = c.flat.literals;
    let mut names = c.names;
    let added = application_added(
        &mut records[..c.numbers],
        &mut literals[..c.flat.room],
        &mut names[..c.bytes],
        terms,
        symbols,
        name,
        children,
    );
    c.flat.records = records;
    c.flat.literals = literals;
    lent_entries::unload_names(ns, &names);
    lent::unload(ts, &c.flat);
    added
}

// The number of the literal.
pub fn find_literal(
    ts: &[Term],
    ns: &[Name],
    terms: usize,
    symbols: usize,
    literal: i64,
) -> Result<usize, Refusal>
    ensures { seen result
        ≡ find_literal (lent_store ts.now ns.now terms symbols) literal }
{
    let mut c = StoreCopy::blank();
    lent::copy_of(ts, ns, &mut c);
    term::find_literal(&c.lent(terms, symbols), literal)
}

// The number of the variable.
pub fn find_variable(
    ts: &[Term],
    ns: &[Name],
    terms: usize,
    symbols: usize,
    name: &[u8],
) -> Result<usize, Refusal>
    ensures { seen result
        ≡ find_variable (lent_store ts.now ns.now terms symbols) name.now }
{
    let mut c = StoreCopy::blank();
    lent::copy_of(ts, ns, &mut c);
    term::find_variable(&c.lent(terms, symbols), name)
}

// The number of the application.
pub fn find_application(
    ts: &[Term],
    ns: &[Name],
    terms: usize,
    symbols: usize,
    name: &[u8],
    children: &[u64],
) -> Result<usize, Refusal>
    ensures { seen result
        ≡ find_application (lent_store ts.now ns.now terms symbols) name.now
        children.now }
{
    let mut c = StoreCopy::blank();
    lent::copy_of(ts, ns, &mut c);
    term::find_application(&c.lent(terms, symbols), name, children)
}

// Term `i`.
pub fn get(
    ts: &[Term],
    ns: &[Name],
    terms: usize,
    symbols: usize,
    i: usize,
) -> Result<Term, Refusal>
    ensures { seen_got result ≡ get_term (lent_store ts.now ns.now terms symbols) i }
{
    let mut c = StoreCopy::blank();
    lent::copy_of(ts, ns, &mut c);
    term::get(&c.lent(terms, symbols), i)
}

// How term `i` stands to term `j` in the order of terms.
pub fn compare(
    ts: &[Term],
    ns: &[Name],
    terms: usize,
    symbols: usize,
    i: usize,
    j: usize,
) -> Result<Ordering, Refusal>
    ensures { seen result
        ≡ compare_terms (lent_store ts.now ns.now terms symbols) i j }
{
    let mut c = StoreCopy::blank();
    lent::copy_of(ts, ns, &mut c);
    term::compare(&c.lent(terms, symbols), i, j)
}

// Sorts a list of terms of any length, and keeps repeats: `sort_terms_by_ast` of src/termdag.rs.
pub fn sort(
    ts: &[Term],
    ns: &[Name],
    terms: usize,
    symbols: usize,
    list: &mut [u64],
) -> Result<(), Refusal>
    ensures { seen_sort result list.new
        ≡ sort_terms (lent_store ts.now ns.now terms symbols) list.old }
{
    let mut c = StoreCopy::blank();
    lent::copy_of(ts, ns, &mut c);
    term::sort(&c.lent(terms, symbols), list)
}
