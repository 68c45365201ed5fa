// The store's calls for callers in C, on an array of term structs and an array of name entries: all numbers of an
// answer in one struct, with the store's counts after a call that adds. Assumed of the caller: what
// include/needlevale.h says.
ghost use Rattle.std.specs.Prelude.{◌≡◌};
ghost use Rattle.lent.specs.Records.{lent_store};
ghost use Rattle.term.specs.Calls.{
  add_literal,
  add_variable,
  add_application,
  find_literal,
  find_variable,
  find_application,
  size_of,
  get_term,
  compare_terms,
  sort_terms,
};
ghost use Rattle.c_told.specs.Terms.{number_of, order_of, got_of};
ghost use Rattle.needlevale_c.specs.Terms.{AddedLeft, Sorts};

use c_told::terms;
use c_told::terms::{Adding, Got, Number, Standing};
use lent_entries::Name;
use term_rules::Term;

// How many terms there are.
#[unsafe(no_mangle)]
pub extern "C" fn needlevale_size(ts: &[Term], ns: &[Name], terms: usize, symbols: usize) -> Number
    ensures { result ≡ number_of (size_of (lent_store ts.now ns.now terms symbols)) }
{
    let r = lent_terms::size(ts, ns, terms, symbols);
    terms::told_number(r)
}

// Term `i`: its record, or zeros.
#[unsafe(no_mangle)]
pub extern "C" fn needlevale_get(
    ts: &[Term],
    ns: &[Name],
    terms: usize,
    symbols: usize,
    i: usize,
) -> Got
    ensures { result ≡ got_of (get_term (lent_store ts.now ns.now terms symbols) i) }
{
    let r = lent_terms::get(ts, ns, terms, symbols, i);
    terms::told_got(r)
}

// How term `i` stands to term `j` in the order of terms.
#[unsafe(no_mangle)]
pub extern "C" fn needlevale_compare(
    ts: &[Term],
    ns: &[Name],
    terms: usize,
    symbols: usize,
    i: usize,
    j: usize,
) -> Standing
    ensures { result ≡ order_of (compare_terms (lent_store ts.now ns.now terms symbols) i j) }
{
    let r = lent_terms::compare(ts, ns, terms, symbols, i, j);
    terms::told_order(r)
}

// Sorts a list of terms, and keeps repeats: 0, or minus a refusal's number.
#[unsafe(no_mangle)]
pub extern "C" fn needlevale_sort(
    ts: &[Term],
    ns: &[Name],
    terms: usize,
    symbols: usize,
    list: &mut [u64],
) -> i64
    ensures { Sorts (sort_terms (lent_store ts.now ns.now terms symbols) list.old) result
        list.new }
{
    let r = lent_terms::sort(ts, ns, terms, symbols, list);
    terms::told_verdict(r)
}

// The number of the literal.
#[unsafe(no_mangle)]
pub extern "C" fn needlevale_find_literal(
    ts: &[Term],
    ns: &[Name],
    terms: usize,
    symbols: usize,
    literal: i64,
) -> Number
    ensures { result ≡ number_of (find_literal (lent_store ts.now ns.now terms symbols) literal) }
{
    let r = lent_terms::find_literal(ts, ns, terms, symbols, literal);
    terms::told_number(r)
}

// The number of the variable.
#[unsafe(no_mangle)]
pub extern "C" fn needlevale_find_variable(
    ts: &[Term],
    ns: &[Name],
    terms: usize,
    symbols: usize,
    name: &[u8],
) -> Number
    ensures { result ≡ number_of (find_variable (lent_store ts.now ns.now terms symbols) name.now) }
{
    let r = lent_terms::find_variable(ts, ns, terms, symbols, name);
    terms::told_number(r)
}

// The number of the application.
#[unsafe(no_mangle)]
pub extern "C" fn needlevale_find_application(
    ts: &[Term],
    ns: &[Name],
    terms: usize,
    symbols: usize,
    name: &[u8],
    children: &[u64],
) -> Number
    ensures { result ≡ number_of (find_application (lent_store ts.now ns.now terms symbols) name.now
        children.now) }
{
    let r = lent_terms::find_application(ts, ns, terms, symbols, name, children);
    terms::told_number(r)
}

// Gives the literal's number, and adds it if it is not there.
#[unsafe(no_mangle)]
pub extern "C" fn needlevale_add_literal(
    ts: &mut [Term],
    ns: &[Name],
    terms: usize,
    symbols: usize,
    literal: i64,
) -> Adding
    ensures { AddedLeft ts.old ns.now terms symbols
        (add_literal (lent_store ts.old ns.now terms symbols) literal) result
        ts.new ns.now }
{
    let r = lent_terms::add_literal(ts, ns, terms, symbols, literal);
    terms::told_added(r, terms, symbols)
}

// Gives the variable's number, and adds it if it is not there.
#[unsafe(no_mangle)]
pub extern "C" fn needlevale_add_variable(
    ts: &mut [Term],
    ns: &mut [Name],
    terms: usize,
    symbols: usize,
    name: &[u8],
) -> Adding
    ensures { AddedLeft ts.old ns.old terms symbols
        (add_variable (lent_store ts.old ns.old terms symbols) name.now) result
        ts.new ns.new }
{
    let r = lent_terms::add_variable(ts, ns, terms, symbols, name);
    terms::told_added(r, terms, symbols)
}

// Gives the application's number, and adds it if it is not there.
#[unsafe(no_mangle)]
pub extern "C" fn needlevale_add_application(
    ts: &mut [Term],
    ns: &mut [Name],
    terms: usize,
    symbols: usize,
    name: &[u8],
    children: &[u64],
) -> Adding
    ensures { AddedLeft ts.old ns.old terms symbols
        (add_application (lent_store ts.old ns.old terms symbols) name.now
        children.now) result
        ts.new ns.new }
{
    let r = lent_terms::add_application(ts, ns, terms, symbols, name, children);
    terms::told_added(r, terms, symbols)
}
