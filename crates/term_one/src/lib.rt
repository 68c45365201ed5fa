// One add of a list, on a store that is known to be well formed: what the store's own call answers, without its check
// of the store. (`lit`, `var`, `app` of src/termdag.rs)
#![tactic(auto)]

ghost use Rattle.std.specs.Prelude.{ℕ, ◌≡◌, true, List, map, ◌≤◌, length, take, MatchResult};
ghost use Rattle.name.specs.Name.{valid};
ghost use Rattle.term_add.specs.Held.{held, SameLoans};
ghost use Rattle.term_rules.specs.Lent.{store, HasRecord, symbol_no};
ghost use Rattle.term_rules.specs.WellFormed.{well_formed};
ghost use Rattle.term_rules.specs.Nodes.{Node};
ghost use Rattle.term.specs.Answers.{seen};
ghost use Rattle.term.specs.Calls.{add_literal, add_variable, add_application};
ghost use Rattle.term_one.specs.Wanted.{wanted_of, node, fault, named, asked_at, kids_of, child_number};
ghost use Rattle.term_one.specs.One.{add_one};

pub mod adds; // adds.rt: a list of adds as it is lent

use adds::Adds;
use refusal::Refusal;
use term_add::store_mut::StoreMut;

// Adds a literal.
fn literal(store: &mut StoreMut, literal: i64) -> Result<usize, Refusal>
    requires { well_formed (held store.old) ≡ true }
    ensures loans { SameLoans store.old store.new }
    ensures added { (seen result, held store.new) ≡ add_literal (held store.old) literal }
{
    store.intern_literal(literal).ok_or(Refusal::NoRoom)
}

// Adds a variable.
fn variable(store: &mut StoreMut, name: &[u8]) -> Result<usize, Refusal>
    requires { well_formed (held store.old) ≡ true }
    ensures loans { SameLoans store.old store.new }
    ensures added { (seen result, held store.new) ≡ add_variable (held store.old)
        name.now }
{
    if !name::is_valid(name) {
        return Err(Refusal::BadName);
    }
    store.intern_variable(name).ok_or(Refusal::NoRoom)
}

// Adds an application of a valid name to at most eight terms.
fn applied(store: &mut StoreMut, name: &[u8], children: &[u64]) -> Result<usize, Refusal>
    requires sound { well_formed (held store.old) ≡ true }
    requires name_value { valid name.now ≡ true }
    requires children_len_bound { length children.now ≤ 8 }
    ensures loans { SameLoans store.old store.new }
    ensures added { (seen result, held store.new) ≡ add_application (held store.old)
        name.now children.now }
{
    if !term_record::all_below(children, store.terms) {
        return Err(Refusal::BadTerm);
    }
    store
        .intern_application(name, children)
        .ok_or(Refusal::NoRoom)
}

// The number that child `x` stands for, once the `e` adds before got the first numbers of `got`.
fn child_number(got: &[u64], e: usize, x: u64) -> u64
    requires { e ≤ length got.now }
    ensures { result ≡ child_number (take e got.now) x }
{
    if x < 1024 {
        return x;
    }
    let d = x as usize - 1024;
    if d < e {
        return got[d];
    }
    x
}

// The numbers that the children stand for, into the front of `children`.
fn settle(kids: &[u64], got: &[u64], e: usize, children: &mut [u64])
    requires e_in_bounds { e ≤ length got.now }
    requires kids_in_bounds { length kids.now ≤ length children.old }
    ensures { take (length kids.now) children.new
        ≡ map (child_number (take e got.now)) kids.now }
{
    for (j, &kid) in kids.iter().enumerate() {
        children[j] = child_number(got, e, kid);
    }
}

// Adds an application of the name to the children of add `e`.
fn application(
    store: &mut StoreMut,
    name: &[u8],
    list: &Adds,
    got: &[u64],
    e: usize,
) -> Result<usize, Refusal>
    requires sound { well_formed (held store.old) ≡ true }
    requires has_record { HasRecord list.now.adds.now e }
    requires e_in_bounds { e ≤ length got.now }
    ensures loans { SameLoans store.old store.new }
    ensures added { (seen result, held store.new) ≡ add_application (held store.old)
        name.now (map (child_number (take e got.now)) (kids_of list.now.adds.now e)) }
{
    if !name::is_valid(name) {
        return Err(Refusal::BadName);
    }
    if 8 < term_layout::count_of(list.adds, e) {
        return Err(Refusal::BadSize);
    }
    let kids = term_layout::children_of(list.adds, e);
    let mut children = [0u64; 8];
    settle(kids, got, e, &mut children);
    applied(store, name, &children[..kids.len()])
}

// The name of add `e`, which is that of a variable or an application.
fn label_of<'a>(list: &Adds<'a>, e: usize) -> Result<&'a [u8], Refusal>
    requires { HasRecord list.now.adds.now e }
    ensures { MatchResult result
        (λ n. (make : List ℕ → Node) →
        named list.now.labels.now (symbol_no list.now.adds.now e) make ≡ node (make n.now))
        (λ r. (make : List ℕ → Node) →
        named list.now.labels.now (symbol_no list.now.adds.now e) make ≡ fault r) }
{
    let k = term_layout::symbol_of(list.adds, e) as usize;
    if name::entry_room(list.labels.len()) <= k {
        return Err(Refusal::Short);
    }
    if 31 < name::length_of(list.labels, k) {
        return Err(Refusal::BadName);
    }
    Ok(name::name_of(list.labels, k))
}

// Add `e`, once the adds before it got the first numbers of `got`.
pub fn add_one(store: &mut StoreMut, list: &Adds, got: &[u64], e: usize) -> Result<usize, Refusal>
    requires sound { well_formed (held store.old) ≡ true }
    requires has_record { HasRecord list.now.adds.now e }
    requires e_in_bounds { e ≤ length got.now }
    ensures loans { SameLoans store.old store.new }
    ensures added { (seen result, held store.new) ≡ add_one (held store.old)
        (take e got.now)
        (asked_at (wanted_of list.now) e) }
{
    match term_layout::kind_of(list.adds, e) {
        0 => {
            if list.values.len() <= e {
                return Err(Refusal::Short);
            }
            literal(store, list.values[e])
        }
        1 => {
            let label = label_of(list, e)?;
            variable(store, label)
        }
        2 => {
            let label = label_of(list, e)?;
            application(store, label, list, got, e)
        }
        _ => Err(Refusal::BadValue),
    }
}
