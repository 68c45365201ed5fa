// Terms looked for and added in a lent store that is well formed: `add_node`, `lit`, `var`, `app` of src/termdag.rs.
#![tactic(auto)]

ghost use Rattle.std.specs.Prelude.{◌≡◌, true, false, ℕ, ◌≤◌, ◌<◌, length};
ghost use Rattle.term_layout.specs.Sound.{store_of};
ghost use Rattle.name.specs.Name.{valid};
ghost use Rattle.term_rules.specs.Lent.{store, records_length, InRecords};
ghost use Rattle.term_rules.specs.WellFormed.{all_below, well_formed};
ghost use Rattle.term_rules.specs.Nodes.{literal, variable, application};
ghost use Rattle.term_rules.specs.Adding.{first_from, find_symbol, find_term, add};
ghost use Rattle.term_add.specs.Interning.{has, has_at, room_in, name_room_in, Leaves, append_named, append_literal};

use term_layout::store::Store;

pub mod store_mut; // store_mut.rt: a lent store that terms are added to

// The number of a term that is in the store now, with the store's counts then.
#[derive(Clone, Copy)]
pub struct Added {
    pub term: usize,
    pub terms: usize,
    pub symbols: usize,
}

fn is_record(
    records: &[u64],
    literals: &[i64],
    i: usize,
    kind: u64,
    symbol: u64,
    literal: i64,
    children: &[u64],
) -> bool
    requires in_records { InRecords records.now literals.now i }
    requires children_len_bound { length children.now ≤ 8 }
    ensures { result ≡ has_at records.now literals.now kind symbol literal children.now i }
{
    if term_layout::kind_of(records, i) != kind {
        return false;
    }
    if term_layout::symbol_of(records, i) != symbol {
        return false;
    }
    if term_layout::count_of(records, i) != children.len() as u64 {
        return false;
    }
    if literals[i] != literal {
        return false;
    }
    term_layout::children_of(records, i) == children
}

// The first record that has these parts: at most as many record compares as there are terms.
fn find_record(
    store: &Store,
    kind: u64,
    symbol: u64,
    literal: i64,
    children: &[u64],
) -> Option<usize>
    requires { length children.now ≤ 8 }
    ensures { result
        ≡ first_from
        (has_at store.now.records.now store.now.literals.now kind symbol literal children.now)
        0 store.now.terms }
{
    for i in 0..store.terms {
        if is_record(
            store.records,
            store.literals,
            i,
            kind,
            symbol,
            literal,
            children,
        ) {
            return Some(i);
        }
    }
    None
}

// The number of the name.
fn find_symbol(store: &Store, name: &[u8]) -> Option<usize>
    ensures { result ≡ find_symbol (store_of store.now) name.now }
{
    name::find(store.names, store.symbols, name)
}

// The number of the literal.
pub fn find_literal(store: &Store, literal: i64) -> Option<usize>
    ensures { result ≡ find_term (store_of store.now) (Rattle.term_rules.specs.Nodes.literal literal) }
{
    find_record(store, 0, 0, literal, &[])
}

// The number of the variable.
pub fn find_variable(store: &Store, name: &[u8]) -> Option<usize>
    ensures { result ≡ find_term (store_of store.now) (variable name.now) }
{
    let Some(symbol) = find_symbol(store, name) else {
        return None;
    };
    find_record(store, 1, symbol as u64, 0, &[])
}

// The number of the application.
pub fn find_application(store: &Store, name: &[u8], children: &[u64]) -> Option<usize>
    requires children_len_bound { length children.now ≤ 8 }
    ensures { result ≡ find_term (store_of store.now) (application name.now children.now) }
{
    let Some(symbol) = find_symbol(store, name) else {
        return None;
    };
    find_record(store, 2, symbol as u64, 0, children)
}

// Whether one more record fits the lent lengths.
fn has_room(records: usize, literals: usize, terms: usize) -> bool
    ensures { result ≡ room_in records literals terms }
{
    terms < 1024.min(term_layout::record_room(records).min(literals))
}

// Whether one more name fits the lent length.
fn has_name_room(names: usize, symbols: usize) -> bool
    ensures { result ≡ name_room_in names symbols }
{
    symbols < 128.min(name::entry_room(names))
}

// Appends a literal's record.
fn append_literal(
    records: &mut [u64],
    literals: &mut [i64],
    names: &[u8],
    terms: usize,
    symbols: usize,
    literal: i64,
) -> Option<Added>
    ensures { Leaves (store records.old literals.old names.now terms symbols)
        (append_literal (store records.old literals.old names.now terms symbols)
        literal)
        result records.new literals.new names.now }
{
    if !has_room(records.len(), literals.len(), terms) {
        return None;
    }
    term_layout::put_record(records, literals, terms, 0, 0, 0, literal, &[]);
    Some(Added {
        term: terms,
        terms: terms + 1,
        symbols,
    })
}

// Gives the number of the literal, and adds it if it is not there.
pub fn intern_literal(
    records: &mut [u64],
    literals: &mut [i64],
    names: &[u8],
    terms: usize,
    symbols: usize,
    literal: i64,
) -> Option<Added>
    requires { well_formed (store records.old literals.old names.now terms symbols) ≡ true }
    ensures { Leaves (store records.old literals.old names.now terms symbols)
        (add (store records.old literals.old names.now terms symbols)
        (Rattle.term_rules.specs.Nodes.literal literal))
        result records.new literals.new names.now }
{
    let store = Store {
        records,
        literals,
        names,
        terms,
        symbols,
    };
    let Some(term) = find_literal(&store, literal) else {
        return append_literal(records, literals, names, terms, symbols, literal);
    };
    Some(Added {
        term,
        terms,
        symbols,
    })
}
