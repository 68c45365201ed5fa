// Makes 2,000 calls on one lent store of 40 records and 12 names and writes each answer, a line a call. The calls are
// made of the numbers x -> (x * 1103515245 + 12345) mod 2^31 from 1. `stdout` holds what the oracle answers to them
// (oracle/term-runs).
#![tactic(auto)]

use refusal::Refusal;
use std::cmp::Ordering;
use std::io;
use term_add::store_mut::StoreMut;

fn next(x: u64) -> u64 {
    (x % 2147483648 * 1103515245 + 12345) % 2147483648
}

fn digit(n: u64) -> u8 {
    b'0' + (n % 10) as u8
}

fn write_term(rt: &impl Print, i: usize) -> io::Result<()> {
    println!(rt; "term {i}")
}

fn write_refusal(rt: &impl Print, refusal: Refusal) -> io::Result<()> {
    println!(rt; "refused {}", refusal::number(refusal))
}

fn write_order(rt: &impl Print, order: Ordering) -> io::Result<()> {
    match order {
        Ordering::Less => println!(rt; "less"),
        Ordering::Equal => println!(rt; "equal"),
        Ordering::Greater => println!(rt; "greater"),
    }
}

// Writes the number of a term, or why there is none.
fn write_answer(rt: &impl Print, answer: Result<usize, Refusal>) -> io::Result<()> {
    match answer {
        Ok(i) => write_term(rt, i),
        Err(refusal) => write_refusal(rt, refusal),
    }
}

// A literal from -8 to 7.
fn value(x: u64) -> i64 {
    (x / 16 % 16) as i64 - 8
}

fn add_literal(rt: &impl Print, store: &mut StoreMut, x: u64) -> io::Result<()> {
    let (terms, symbols) = (store.terms, store.symbols);
    let records = &mut *store.records;
    let literals = &mut *store.literals;
    let names = &mut *store.names;
    match term::add_literal(records, literals, names, terms, symbols, value(x)) {
        Ok(added) => {
            store.terms = added.terms;
            store.symbols = added.symbols;
            write_term(rt, added.term)
        }
        Err(refusal) => write_refusal(rt, refusal),
    }
}

fn add_literal_in(rt: &impl Print, store: &mut StoreMut, x: u64) -> io::Result<()> {
    write_answer(rt, term::add_literal_in(store, value(x)))
}

fn add_variable(rt: &impl Print, store: &mut StoreMut, x: u64) -> io::Result<()> {
    let name = [b'v', digit(x / 16)];
    write_answer(rt, term::add_variable(store, &name))
}

fn add_application(rt: &impl Print, store: &mut StoreMut, x: u64) -> io::Result<()> {
    let name = [b'f', digit(x / 16 % 3)];
    let children = [x / 64 % 32, x / 2048 % 32, x / 65536 % 32];
    let n = (x / 16 % 4) as usize;
    write_answer(rt, term::add_application(store, &name, &children[..n]))
}

fn find_application(rt: &impl Print, store: &StoreMut, x: u64) -> io::Result<()> {
    let name = [b'f', digit(x / 16 % 3)];
    let children = [x / 64 % 32, x / 2048 % 32, x / 65536 % 32];
    let n = (x / 16 % 4) as usize;
    write_answer(
        rt,
        term::find_application(&store.lent(), &name, &children[..n]),
    )
}

fn compare(rt: &impl Print, store: &StoreMut, x: u64) -> io::Result<()> {
    let a = (x / 64 % 40) as usize;
    let b = (x / 4096 % 40) as usize;
    match term::compare(&store.lent(), a, b) {
        Ok(order) => write_order(rt, order),
        Err(refusal) => write_refusal(rt, refusal),
    }
}

fn sort(rt: &impl Print, store: &StoreMut, x: u64) -> io::Result<()> {
    let mut list = [x / 64 % 40, x / 2048 % 40, x / 65536 % 40, x / 131072 % 40];
    match term::sort(&store.lent(), &mut list) {
        Ok(()) => {
            let [a, b, c, d] = list;
            println!(rt; "sorted {a} {b} {c} {d}")
        }
        Err(refusal) => write_refusal(rt, refusal),
    }
}

// Makes the call of `x`.
fn turn(rt: &impl Print, store: &mut StoreMut, x: u64) -> io::Result<()> {
    match x / 1048576 % 8 {
        0 => add_literal(rt, store, x),
        1 => add_literal_in(rt, store, x),
        2 => add_variable(rt, store, x),
        3 | 4 => add_application(rt, store, x),
        5 => find_application(rt, store, x),
        6 => compare(rt, store, x),
        _ => sort(rt, store, x),
    }
}

fn main(rt: HostRuntime) -> io::Result<()> {
    let mut records = [0u64; 440];
    let mut literals = [0i64; 40];
    let mut names = [0u8; 384];
    let mut store = StoreMut {
        records: &mut records,
        literals: &mut literals,
        names: &mut names,
        terms: 0,
        symbols: 0,
    };
    let mut x: u64 = 1;
    for _ in 0..2000 {
        x = next(x);
        turn(&rt, &mut store, x)?;
    }
    Ok(())
}
