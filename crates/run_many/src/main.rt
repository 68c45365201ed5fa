// Adds a list of three terms by one call to an empty lent store, nine times with another third add, and writes each
// answer, a line a call: how many terms there are then, or the refusal; and the list for the numbers, which held
// nines. The adds are the literal 5, the variable `x`, and the third one. The file `stdout` beside src/ holds what
// R-term-18 says of them, written by hand.
#![tactic(auto)]

use std::io;
use term_add::store_mut::StoreMut;
use term_one::adds::Adds;

// One call; the third add has this kind, symbol and count, and these first two children.
fn three(rt: &impl Print, kind: u64, symbol: u64, count: u64, a: u64, b: u64) -> io::Result<()> {
    let adds = [
        0u64, 0, 0, 0, 0, 0, 0, 0, 0, 0, 0, 1, 0, 0, 0, 0, 0, 0, 0, 0, 0, 0, kind, symbol, count,
        a, b, 0, 0, 0, 0, 0, 0,
    ];
    let values = [5i64];
    let mut labels = [0u8; 64];
    labels[0] = 1;
    labels[1] = 120;
    labels[32] = 1;
    labels[33] = 102;
    let mut records = [0u64; 33];
    let mut literals = [0i64; 3];
    let mut names = [0u8; 64];
    let mut numbers = [9u64; 4];
    let mut store = StoreMut {
        records: &mut records,
        literals: &mut literals,
        names: &mut names,
        terms: 0,
        symbols: 0,
    };
    let list = Adds {
        adds: &adds,
        values: &values,
        labels: &labels,
    };
    let answer = term_many::add_many(&mut store, &list, &mut numbers);
    match answer {
        Ok(()) => print!(rt; "terms {:02}", store.terms)?,
        Err(refusal) => print!(rt; "refused {:02}", refusal::number(refusal))?,
    }
    for number in numbers {
        print!(rt; " {number:02}")?;
    }
    println!(rt)
}

fn main(rt: HostRuntime) -> io::Result<()> {
    three(&rt, 2, 1, 2, 1024, 1025)?;
    three(&rt, 2, 1, 2, 0, 1)?;
    three(&rt, 1, 0, 0, 0, 0)?;
    three(&rt, 2, 1, 2, 1024, 1026)?;
    three(&rt, 2, 1, 1, 2, 0)?;
    three(&rt, 3, 1, 2, 0, 1)?;
    three(&rt, 0, 0, 0, 0, 0)?;
    three(&rt, 2, 2, 2, 0, 1)?;
    three(&rt, 2, 1, 9, 0, 1)
}
