// The term store: one number per term, for good (src/termdag.rs). Every call checks the lent store for itself, and a
// refusal leaves all that is lent as it was.
#![tactic(auto)]

ghost use Rattle.std.specs.Prelude.{IfOk, IfErr, ◌≡◌, false};
ghost use Rattle.refusal.specs.declared.Refusal.TheVariants.{BadStore};
ghost use Rattle.term_layout.specs.Sound.{lent_of, store_of};
ghost use Rattle.term_add.specs.Held.{held, SameLoans};
ghost use Rattle.term_rules.specs.Lent.{store};
ghost use Rattle.term_rules.specs.WellFormed.{well_formed};
ghost use Rattle.term.specs.Calls.{
  faults_of,
  literal_faults,
  variable_faults,
  application_faults,
  terms_faults,
  add_literal,
  add_variable,
  add_application,
  find_literal,
  find_variable,
  find_application,
  size_of,
  get_term,
  compare_terms,
  sort_terms,
};
ghost use Rattle.term.specs.Answers.{seen, seen_added, seen_got, seen_sort};

use refusal::Refusal;
use std::cmp::Ordering;
pub use term_add::Added;
use term_add::store_mut::StoreMut;
use term_layout::lent::Lent;
use term_layout::store::Store;
use term_rules::Term;

// Whether what is lent is a well-formed store. Where it is not, every other call gives BadStore.
pub fn is_well_formed(lent: &Lent) -> bool
    ensures { result ≡ well_formed (lent_of lent.now) }
{
    term_record::check(lent)
}

// What each call asks first: a well-formed store. It comes back as one that is known to be.
pub fn check_store<'a>(lent: &Lent<'a>) -> Result<Store<'a>, Refusal>
    ensures faults { faults_of result
        ≡ literal_faults (lent_of lent.now) }
    ensures same { IfOk result (λ s. store_of s ≡ lent_of lent.now) }
    ensures bad { IfErr result (λ why. (why ≡ BadStore) × (well_formed (lent_of lent.now) ≡ false)) }
{
    if !is_well_formed(lent) {
        return Err(Refusal::BadStore);
    }
    Ok(term_record::known(lent))
}

// What a call on a variable asks.
fn check_variable<'a>(lent: &Lent<'a>, name: &[u8]) -> Result<Store<'a>, Refusal>
    ensures faults { faults_of result
        ≡ variable_faults (lent_of lent.now) name.now }
    ensures same { IfOk result (λ s. store_of s ≡ lent_of lent.now) }
{
    let store = check_store(lent)?;
    if !name::is_valid(name) {
        return Err(Refusal::BadName);
    }
    Ok(store)
}

// Whether every number of the list is a term.
fn check_terms(list: &[u64], terms: usize) -> Result<(), Refusal>
    ensures { faults_of result ≡ terms_faults terms list.now }
{
    if !term_record::all_below(list, terms) {
        return Err(Refusal::BadTerm);
    }
    Ok(())
}

// What a call on an application asks.
fn check_application<'a>(
    lent: &Lent<'a>,
    name: &[u8],
    children: &[u64],
) -> Result<Store<'a>, Refusal>
    ensures faults { faults_of result
        ≡ application_faults (lent_of lent.now)
        name.now children.now }
    ensures same { IfOk result (λ s. store_of s ≡ lent_of lent.now) }
{
    let store = check_variable(lent, name)?;
    if 8 < children.len() {
        return Err(Refusal::BadSize);
    }
    check_terms(children, store.terms)?;
    Ok(store)
}

// Gives the literal's number, and adds it if it is not there: `lit` of src/termdag.rs. The names are only read.
pub fn add_literal(
    records: &mut [u64],
    literals: &mut [i64],
    names: &[u8],
    terms: usize,
    symbols: usize,
    literal: i64,
) -> Result<Added, Refusal>
    ensures { seen_added result records.new literals.new names.now terms symbols
        ≡ add_literal (store records.old literals.old names.now terms symbols) literal }
{
    check_store(&Lent {
        records,
        literals,
        names,
        terms,
        symbols,
    })?;
    let Some(added) = term_add::intern_literal(records, literals, names, terms, symbols, literal)
    else {
        return Err(Refusal::NoRoom);
    };
    Ok(added)
}

// The same in a store that is lent as the next two calls take it.
pub fn add_literal_in(store: &mut StoreMut, literal: i64) -> Result<usize, Refusal>
    ensures loans { SameLoans store.old store.new }
    ensures added { (seen result, held store.new) ≡ add_literal (held store.old) literal }
{
    check_store(&store.lent())?;
    let Some(term) = store.intern_literal(literal) else {
        return Err(Refusal::NoRoom);
    };
    Ok(term)
}

// Gives the variable's number, and adds it if it is not there: `var` of src/termdag.rs.
pub fn add_variable(store: &mut StoreMut, name: &[u8]) -> Result<usize, Refusal>
    ensures loans { SameLoans store.old store.new }
    ensures added { (seen result, held store.new) ≡ add_variable (held store.old) name.now }
{
    check_variable(&store.lent(), name)?;
    let Some(term) = store.intern_variable(name) else {
        return Err(Refusal::NoRoom);
    };
    Ok(term)
}

// Gives the application's number, and adds it if it is not there: `app` of src/termdag.rs.
pub fn add_application(
    store: &mut StoreMut,
    name: &[u8],
    children: &[u64],
) -> Result<usize, Refusal>
    ensures loans { SameLoans store.old store.new }
    ensures added { (seen result, held store.new)
        ≡ add_application (held store.old) name.now children.now }
{
    check_application(&store.lent(), name, children)?;
    let Some(term) = store.intern_application(name, children) else {
        return Err(Refusal::NoRoom);
    };
    Ok(term)
}

// Gives the literal's number: `lookup` of src/termdag.rs.
pub fn find_literal(lent: &Lent, literal: i64) -> Result<usize, Refusal>
    ensures { seen result
        ≡ find_literal (lent_of lent.now) literal }
{
    let store = check_store(lent)?;
    let Some(term) = term_add::find_literal(&store, literal) else {
        return Err(Refusal::Absent);
    };
    Ok(term)
}

// Gives the variable's number: `lookup` of src/termdag.rs.
pub fn find_variable(lent: &Lent, name: &[u8]) -> Result<usize, Refusal>
    ensures { seen result
        ≡ find_variable (lent_of lent.now)
        name.now }
{
    let store = check_variable(lent, name)?;
    let Some(term) = term_add::find_variable(&store, name) else {
        return Err(Refusal::Absent);
    };
    Ok(term)
}

// Gives the application's number: `lookup` of src/termdag.rs.
pub fn find_application(lent: &Lent, name: &[u8], children: &[u64]) -> Result<usize, Refusal>
    ensures { seen result
        ≡ find_application (lent_of lent.now)
        name.now children.now }
{
    let store = check_application(lent, name, children)?;
    let Some(term) = term_add::find_application(&store, name, children) else {
        return Err(Refusal::Absent);
    };
    Ok(term)
}

// How many terms the store has: `size` of src/termdag.rs.
pub fn size(lent: &Lent) -> Result<usize, Refusal>
    ensures { seen result
        ≡ size_of (lent_of lent.now) }
{
    let store = check_store(lent)?;
    Ok(store.terms)
}

// Term `i`: `get` of src/termdag.rs.
pub fn get(lent: &Lent, i: usize) -> Result<Term, Refusal>
    ensures { seen_got result
        ≡ get_term (lent_of lent.now) i }
{
    let store = check_store(lent)?;
    if store.terms <= i {
        return Err(Refusal::BadTerm);
    }
    Ok(term_record::record_at(store.records, store.literals, i))
}

// How term `a` stands to term `b`: `ast_cmp` of src/termdag.rs.
pub fn compare(lent: &Lent, a: usize, b: usize) -> Result<Ordering, Refusal>
    ensures { seen result
        ≡ compare_terms (lent_of lent.now) a b }
{
    let store = check_store(lent)?;
    if store.terms <= a || store.terms <= b {
        return Err(Refusal::BadTerm);
    }
    Ok(term_order::compare(&store, a, b))
}

// Sorts a list of terms of any length, and keeps repeats: `sort_terms_by_ast` of src/termdag.rs.
pub fn sort(lent: &Lent, list: &mut [u64]) -> Result<(), Refusal>
    ensures { seen_sort result list.new
        ≡ sort_terms (lent_of lent.now)
        list.old }
{
    let store = check_store(lent)?;
    check_terms(list, store.terms)?;
    term_order::sort::sort(&store, list);
    Ok(())
}
