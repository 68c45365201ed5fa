// The lent store's records as flat numbers: one record read or written, and whether a whole lent store is well formed.
#![tactic(auto)]

ghost use Rattle.std.specs.Prelude.{◌≡◌, true, false, ℕ, ◌+◌, ◌≤◌, ◌<◌, length, is_some, IfSome};
ghost use Rattle.term_layout.specs.Sound.{lent_of, store_of};
ghost use Rattle.name.specs.Entries.{entries_length, HasEntry, Entries};
ghost use Rattle.term_rules.specs.Lent.{store, records_length, InRecords, record_in};
ghost use Rattle.term_rules.specs.WellFormed.{
  every,
  all_zero,
  all_below,
  sound_name,
  sound_literal,
  sound_variable,
  sound_application,
  sound_record,
  same_term,
  well_formed,
};
ghost use Rattle.term_record.specs.Flat.{fresh_name, fresh_record, sound_record_at, within};
ghost use Rattle.term_record.specs.Buckets.{digest_from, bucket_in, Last, Chained};

use term_layout::lent::Lent;
use term_layout::store::Store;
use term_rules::Term;

// Term record `i`.
pub fn record_at(records: &[u64], literals: &[i64], i: usize) -> Term
    requires { InRecords records.now literals.now i }
    ensures { result ≡ record_in records.now literals.now i }
{
    let kind = term_layout::kind_of(records, i);
    let symbol = term_layout::symbol_of(records, i);
    let count = term_layout::count_of(records, i);
    let mut children = [0u64; 8];
    children.copy_from_slice(term_layout::places_of(records, i));
    Term {
        kind,
        symbol,
        count,
        literal: literals[i],
        children,
    }
}

fn all_zero(s: &[u64]) -> bool
    ensures { result ≡ all_zero s.now }
{
    s.iter().all(|x| *x == 0)
}

// Whether every number of `s` is below `n`.
pub fn all_below(s: &[u64], n: usize) -> bool
    ensures { result ≡ all_below n s.now }
{
    s.iter().all(|x| *x < n as u64)
}

// Whether entry `k` holds a valid name, with zeros past it.
fn is_sound_name(names: &[u8], k: usize) -> bool
    requires { HasEntry names.now k }
    ensures { result ≡ sound_name names.now k }
{
    if 31 < name::length_of(names, k) {
        return false;
    }
    if !name::is_valid(name::name_of(names, k)) {
        return false;
    }
    name::padding_of(names, k).iter().all(|b| *b == 0)
}

fn are_names_sound(names: &[u8], symbols: usize) -> bool
    requires { entries_length symbols ≤ length names.now }
    ensures { result ≡ every symbols (sound_name names.now) }
{
    for k in 0..symbols {
        if !is_sound_name(names, k) {
            return false;
        }
    }
    true
}

// Whether no entry below `k` has the name of entry `k`.
fn is_new_name(names: &[u8], k: usize) -> bool
    requires { Entries names.now (k + 1) }
    ensures { result ≡ fresh_name names.now k }
{
    name::find(names, k, name::name_of(names, k)).is_none()
}

fn are_names_new(names: &[u8], symbols: usize) -> bool
    requires { Entries names.now symbols }
    ensures { result ≡ every symbols (fresh_name names.now) }
{
    for k in 0..symbols {
        if !is_new_name(names, k) {
            return false;
        }
    }
    true
}

#[tactic(auto, unfolding(term_rules::specs::WellFormed::sound_literal, term_rules::specs::Lent::record_in))]
fn is_sound_literal(records: &[u64], literals: &[i64], i: usize) -> bool
    requires { InRecords records.now literals.now i }
    ensures { result ≡ sound_literal (record_in records.now literals.now i) }
{
    term_layout::symbol_of(records, i) == 0
        && term_layout::count_of(records, i) == 0
        && all_zero(term_layout::places_of(records, i))
}

fn is_sound_variable(records: &[u64], literals: &[i64], i: usize, symbols: usize) -> bool
    requires { InRecords records.now literals.now i }
    ensures { result ≡ sound_variable symbols (record_in records.now literals.now i) }
{
    if term_layout::symbol_of(records, i) >= symbols as u64 {
        return false;
    }
    if term_layout::count_of(records, i) != 0 {
        return false;
    }
    if literals[i] != 0 {
        return false;
    }
    all_zero(term_layout::places_of(records, i))
}

fn is_sound_application(records: &[u64], literals: &[i64], i: usize, symbols: usize) -> bool
    requires { InRecords records.now literals.now i }
    ensures { result ≡ sound_application symbols i (record_in records.now literals.now i) }
{
    if term_layout::symbol_of(records, i) >= symbols as u64 {
        return false;
    }
    if 8 < term_layout::count_of(records, i) {
        return false;
    }
    if literals[i] != 0 {
        return false;
    }
    if !all_below(term_layout::children_of(records, i), i) {
        return false;
    }
    all_zero(term_layout::unused_of(records, i))
}

// Whether record `i` is sound, by its kind.
fn is_sound_record(records: &[u64], literals: &[i64], i: usize, symbols: usize) -> bool
    requires { InRecords records.now literals.now i }
    ensures { result ≡ sound_record_at records.now literals.now symbols i }
{
    match term_layout::kind_of(records, i) {
        0 => is_sound_literal(records, literals, i),
        1 => is_sound_variable(records, literals, i, symbols),
        2 => is_sound_application(records, literals, i, symbols),
        _ => false,
    }
}

fn are_records_sound(records: &[u64], literals: &[i64], terms: usize, symbols: usize) -> bool
    requires { (records_length terms ≤ length records.now) × (terms ≤ length literals.now) }
    ensures { result ≡ every terms (sound_record_at records.now literals.now symbols) }
{
    for i in 0..terms {
        if !is_sound_record(records, literals, i, symbols) {
            return false;
        }
    }
    true
}

// Whether records `j` and `i` are the same in every field.
fn is_same_record(records: &[u64], literals: &[i64], j: usize, i: usize) -> bool
    requires in_records { InRecords records.now literals.now j }
    requires in_records_2 { InRecords records.now literals.now i }
    ensures { result
        ≡ same_term (record_in records.now literals.now j)
        (record_in records.now literals.now i) }
{
    if term_layout::kind_of(records, j) != term_layout::kind_of(records, i) {
        return false;
    }
    if term_layout::symbol_of(records, j) != term_layout::symbol_of(records, i) {
        return false;
    }
    if term_layout::count_of(records, j) != term_layout::count_of(records, i) {
        return false;
    }
    if literals[j] != literals[i] {
        return false;
    }
    term_layout::places_of(records, j) == term_layout::places_of(records, i)
}

// A number below 1,021 that depends on `start` and `s` alone.
fn digest(start: u64, s: &[u64]) -> u64
    requires { start < 1021 }
    ensures value { result ≡ digest_from start s.now }
    ensures upper_bound { result < 1021 }
{
    let mut h = start;
    for x in s {
        h = (h * 31 + *x % 1021) % 1021;
    }
    h
}

// The bucket of record `i`: the same for records that are the same.
fn bucket(records: &[u64], literals: &[i64], i: usize) -> usize
    requires { InRecords records.now literals.now i }
    ensures value { result ≡ bucket_in records.now literals.now i }
    ensures upper_bound { result < 1021 }
{
    let h = digest(
        term_layout::symbol_of(records, i) % 1021,
        term_layout::places_of(records, i),
    );
    let m = literals[i].unsigned_abs() % 1021;
    ((h + m) % 1021) as usize
}

// Whether no record below `i` is the same as record `i`: those of its bucket are looked at, from the last, `from`, on.
fn is_new_record(records: &[u64], literals: &[i64], nexts: &[usize], from: usize, i: usize) -> bool
    requires in_records { InRecords records.now literals.now i }
    requires chained { Chained (bucket_in records.now literals.now) nexts.now i }
    requires last { Last (bucket_in records.now literals.now) (bucket_in records.now literals.now i) i from }
    requires i_in_bounds { i ≤ length nexts.now }
    ensures { result ≡ fresh_record records.now literals.now i }
{
    let mut p = from;
    while 0 < p {
        let j = p - 1;
        if is_same_record(records, literals, j, i) {
            return false;
        }
        p = nexts[j];
    }
    true
}

// Whether no two records are the same. Each is compared with those of its own bucket alone, which are chained.
fn are_records_new(records: &[u64], literals: &[i64], terms: usize) -> bool
    requires { (records_length terms ≤ length records.now) × ((terms ≤ length literals.now) × (terms ≤ 1024)) }
    ensures { result ≡ every terms (fresh_record records.now literals.now) }
{
    let mut lasts: [usize; 1021] = [0; 1021];
    let mut nexts: [usize; 1024] = [0; 1024];
    for i in 0..terms {
        let b = bucket(records, literals, i);
        let from = lasts[b];
        if !is_new_record(records, literals, &nexts, from, i) {
            return false;
        }
        nexts[i] = from;
        lasts[b] = i + 1;
    }
    true
}

// Whether the counts are within the limits and these lent lengths.
#[tactic(auto, unfolding(crate::specs::Flat::within))]
fn are_counts_within(
    records: usize,
    literals: usize,
    names: usize,
    terms: usize,
    symbols: usize,
) -> bool
    ensures { result ≡ within records literals names terms symbols }
{
    terms <= 1024.min(term_layout::record_room(records).min(literals))
        && symbols <= 128.min(name::entry_room(names))
}

// Whether the lent store is well formed, whatever is lent. At most terms² record compares and symbols² name compares.
pub fn check(lent: &Lent) -> bool
    ensures { result ≡ well_formed (lent_of lent.now) }
{
    if !are_counts_within(
        lent.records.len(),
        lent.literals.len(),
        lent.names.len(),
        lent.terms,
        lent.symbols,
    ) {
        return false;
    }
    if !are_names_sound(lent.names, lent.symbols) {
        return false;
    }
    if !are_names_new(lent.names, lent.symbols) {
        return false;
    }
    if !are_records_sound(lent.records, lent.literals, lent.terms, lent.symbols) {
        return false;
    }
    are_records_new(lent.records, lent.literals, lent.terms)
}

// The store as one that is well formed, for who has asked.
pub fn known<'a>(lent: &Lent<'a>) -> Store<'a>
    requires { well_formed (lent_of lent.now) ≡ true }
    ensures { store_of result ≡ lent_of lent.now }
{
    Store {
        records: lent.records,
        literals: lent.literals,
        names: lent.names,
        terms: lent.terms,
        symbols: lent.symbols,
    }
}

// The store as one that is well formed, where it is.
pub fn checked<'a>(lent: &Lent<'a>) -> Option<Store<'a>>
    ensures told { is_some result ≡ well_formed (lent_of lent.now) }
    ensures same { IfSome result (λ s. store_of s ≡ lent_of lent.now) }
{
    if !check(lent) {
        return None;
    }
    Some(known(lent))
}
