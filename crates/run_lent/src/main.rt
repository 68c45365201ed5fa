// Each call of the store and both texts on lent structs over real data, a line a call. First 2,200 calls that fill a
// lent slice of 1,024 term records and a lent slice of 128 name entries; then its size, every eighth term with its
// texts, and what can be found: as the oracle answers them (oracle/lent-runs). Assumes nothing.
#![tactic(auto)]

use lent_calls::steps;
use lent_calls::steps::Held;
use lent_entries::Name;
use refusal::Refusal;
use std::cmp::Ordering;
use std::io;
use term_rules::Term;

// A call of a run.
#[derive(Clone, Copy)]
enum Call {
    AddVariable,
    AddLiteral,
    AddApplication,
    FindApplication,
    Compare,
    Sort,
}

// The call that `x` asks for.
fn call_of(x: u64) -> Call {
    match x / 1048576 % 8 {
        0 => Call::AddVariable,
        1 => Call::AddLiteral,
        2..=5 => Call::AddApplication,
        6 => {
            if x / 16 % 2 == 0 {
                Call::FindApplication
            } else {
                Call::Compare
            }
        }
        _ => Call::Sort,
    }
}

fn next(x: u64) -> u64 {
    (x % 2147483648 * 1103515245 + 12345) % 2147483648
}

// Writes the number of the term that a call added or found.
fn write_term(rt: &impl Print, answer: Result<usize, Refusal>) -> io::Result<()> {
    match answer {
        Ok(i) => println!(rt; "term {i}"),
        Err(refusal) => run_output::write_refusal(rt, refusal),
    }
}

// A literal from -8 to 7.
fn value(x: u64) -> i64 {
    (x / 16 % 16) as i64 - 8
}

// A literal from -8 to 7, or from 64 to 1,023.
fn literal(x: u64) -> i64 {
    let n = x / 16 % 1024;
    if n < 64 {
        return value(x);
    }
    n as i64
}

fn add_variable(rt: &impl Print, h: &mut Held, ns: &mut [Name], x: u64) -> io::Result<()> {
    let name = [
        b'v',
        run_output::digit(x / 16),
        run_output::digit(x / 256 % 4),
    ];
    write_term(rt, steps::add_variable(h, ns, &name))
}

fn add_application(
    rt: &impl Print,
    h: &mut Held,
    ns: &mut [Name],
    x: u64,
    i: usize,
) -> io::Result<()> {
    let name = [b'f', run_output::digit(x / 16), run_output::digit(x / 512)];
    let m = i as u64 / 2 + 1;
    let children = [x / 64 % m, x / 2048 % m, x / 64 % m];
    let n = (x / 16 % 4) as usize;
    write_term(rt, steps::add_application(h, ns, &name, &children[..n]))
}

fn find_application(rt: &impl Print, h: &Held, ns: &[Name], x: u64, i: usize) -> io::Result<()> {
    let name = [b'f', run_output::digit(x / 16), run_output::digit(x / 512)];
    let m = i as u64 / 2 + 1;
    let children = [x / 64 % m, x / 2048 % m, x / 64 % m];
    let n = (x / 16 % 4) as usize;
    write_term(rt, steps::find_application(h, ns, &name, &children[..n]))
}

fn compare(rt: &impl Print, h: &Held, ns: &[Name], x: u64) -> io::Result<()> {
    let a = (x / 64 % 1040) as usize;
    let b = (x / 4096 % 1040) as usize;
    match steps::compare(h, ns, a, b) {
        Ok(Ordering::Less) => println!(rt; "less"),
        Ok(Ordering::Equal) => println!(rt; "equal"),
        Ok(Ordering::Greater) => println!(rt; "greater"),
        Err(refusal) => run_output::write_refusal(rt, refusal),
    }
}

fn sort(rt: &impl Print, h: &Held, ns: &[Name], x: u64) -> io::Result<()> {
    let mut list = [
        x / 64 % 1024,
        x / 2048 % 1024,
        x / 65536 % 1024,
        x / 131072 % 1024,
    ];
    match steps::sort(h, ns, &mut list) {
        Ok(()) => run_output::write_line(rt, b"sorted", &list),
        Err(refusal) => run_output::write_refusal(rt, refusal),
    }
}

// Makes the call of `x`, after `i` calls.
fn turn(rt: &impl Print, h: &mut Held, ns: &mut [Name], x: u64, i: usize) -> io::Result<()> {
    match call_of(x) {
        Call::AddVariable => add_variable(rt, h, ns, x),
        Call::AddLiteral => write_term(rt, steps::add_literal(h, ns, literal(x))),
        Call::AddApplication => add_application(rt, h, ns, x, i),
        Call::FindApplication => find_application(rt, h, ns, x, i),
        Call::Compare => compare(rt, h, ns, x),
        Call::Sort => sort(rt, h, ns, x),
    }
}

fn turns(rt: &impl Print, h: &mut Held, ns: &mut [Name]) -> io::Result<()> {
    let mut x: u64 = 1;
    for i in 0..2200 {
        x = next(x);
        turn(rt, h, ns, x, i)?;
    }
    Ok(())
}

fn size(rt: &impl Print, h: &Held, ns: &[Name]) -> io::Result<()> {
    match steps::size(h, ns) {
        Ok(n) => println!(rt; "size {n}"),
        Err(refusal) => run_output::write_refusal(rt, refusal),
    }
}

// The name of symbol `k`.
fn write_name(rt: &impl Print, ns: &[Name], k: u64) -> io::Result<()> {
    let Some(entry) = ns.get(k as usize) else {
        return Ok(());
    };
    let n = usize::from(entry[0]);
    if 31 < n {
        return Ok(());
    }
    rt.write_all(&entry[1..n + 1])
}

fn write_record(rt: &impl Print, t: &Term, ns: &[Name]) -> io::Result<()> {
    match t.kind {
        0 => print!(rt; "literal {}", t.literal),
        1 => {
            print!(rt; "variable ")?;
            write_name(rt, ns, t.symbol)
        }
        _ => {
            print!(rt; "app ")?;
            write_name(rt, ns, t.symbol)?;
            run_output::write_list(rt, &t.children, t.count as usize)
        }
    }
}

fn get(rt: &impl Print, h: &Held, ns: &[Name], t: usize) -> io::Result<()> {
    match steps::get(h, ns, t) {
        Ok(record) => {
            write_record(rt, &record, ns)?;
            println!(rt;)
        }
        Err(refusal) => run_output::write_refusal(rt, refusal),
    }
}

fn plain(rt: &impl Print, h: &Held, ns: &[Name], t: usize) -> io::Result<()> {
    let mut out = [0u8; 4096];
    let answer = steps::plain_text(h, ns, t, &mut out);
    run_output::write_plain(rt, answer, &out)
}

// With the zero flag.
fn bound(rt: &impl Print, h: &Held, ns: &[Name], t: usize) -> io::Result<()> {
    let mut out = [0u8; 4096];
    let answer = steps::let_text(h, ns, t, b"", b"t", 0, true, &mut out);
    run_output::write_let(rt, answer, &out)
}

// With a prefix, and start counts on both sides of their limit.
fn counted(rt: &impl Print, h: &Held, ns: &[Name], t: usize) -> io::Result<()> {
    let mut out = [0u8; 4096];
    let start = 4294966000 + (t % 2048) as u64;
    let answer = steps::let_text(h, ns, t, b"p-", b"t", start, false, &mut out);
    run_output::write_let(rt, answer, &out)
}

// Every eighth term and its texts, and the number past the last.
fn all_terms(rt: &impl Print, h: &Held, ns: &[Name]) -> io::Result<()> {
    for t in (0..1025).step_by(8) {
        get(rt, h, ns, t)?;
        plain(rt, h, ns, t)?;
        bound(rt, h, ns, t)?;
        counted(rt, h, ns, t)?;
    }
    Ok(())
}

fn all_literals(rt: &impl Print, h: &Held, ns: &[Name]) -> io::Result<()> {
    for z in -8..8 {
        write_term(rt, steps::find_literal(h, ns, z))?;
    }
    Ok(())
}

fn all_variables(rt: &impl Print, h: &Held, ns: &[Name]) -> io::Result<()> {
    for x in 0..10 {
        let name = [b'v', run_output::digit(x), b'0'];
        write_term(rt, steps::find_variable(h, ns, &name))?;
    }
    Ok(())
}

fn main(rt: HostRuntime) -> io::Result<()> {
    let mut ns = [[0u8; name::WIDTH]; 128];
    let mut h = steps::empty();
    turns(&rt, &mut h, &mut ns)?;
    size(&rt, &h, &ns)?;
    all_terms(&rt, &h, &ns)?;
    all_literals(&rt, &h, &ns)?;
    all_variables(&rt, &h, &ns)
}
