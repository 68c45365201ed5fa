// Best and variants on lent structs over document 01's tables, and the texts of what they answer, as its program writes
// them. Assumes nothing.
#![tactic(auto)]

use lent_calls::steps::Held;
use lent_calls::{choices, steps};
use lent_entries::Name;
use std::io;

fn plain(rt: &impl Print, h: &Held, ns: &[Name], t: usize) -> io::Result<()> {
    let mut out = [0u8; 300];
    let answer = steps::plain_text(h, ns, t, &mut out);
    run_output::write_plain(rt, answer, &out)
}

fn bound(rt: &impl Print, h: &Held, ns: &[Name], t: usize) -> io::Result<()> {
    let mut out = [0u8; 300];
    let answer = steps::let_text(h, ns, t, b"", b"t", 0, false, &mut out);
    run_output::write_let(rt, answer, &out)
}

// The best term of class `value` of sort 0, on an empty store, and its texts.
fn best(rt: &impl Print, file: &[u8], value: u64) -> io::Result<()> {
    let mut h = steps::empty();
    let mut ns = [[0u8; name::WIDTH]; 128];
    match choices::best(&mut h, file, 0, value, &mut ns) {
        Ok(best) => {
            println!(rt; "best {} {} {}", best.cost, best.terms, best.passes)?;
            bound(rt, &h, &ns, best.term)?;
            plain(rt, &h, &ns, best.term)
        }
        Err(refusal) => run_output::write_refusal(rt, refusal),
    }
}

// The first `k` variants, each with its plain text.
fn all_kept(
    rt: &impl Print,
    h: &Held,
    ns: &[Name],
    costs: &[u64; 9],
    found: &[u64; 9],
    k: usize,
) -> io::Result<()> {
    for (i, (cost, term)) in costs.iter().zip(found).take(k).enumerate() {
        println!(rt; "variant {} {cost} {}", i + 1, h.terms)?;
        plain(rt, h, ns, *term as usize)?;
    }
    Ok(())
}

// At most 9 variants of class 0 of sort 0, on an empty store, and their plain texts.
fn variants(rt: &impl Print, file: &[u8]) -> io::Result<()> {
    let mut h = steps::empty();
    let mut ns = [[0u8; name::WIDTH]; 128];
    let mut costs = [0u64; 9];
    let mut found = [0u64; 9];
    match choices::variants(&mut h, file, 0, 0, 9, &mut ns, &mut costs, &mut found) {
        Ok(kept) => {
            println!(rt; "variants {} {}", kept.count, kept.passes)?;
            all_kept(rt, &h, &ns, &costs, &found, kept.count)
        }
        Err(refusal) => run_output::write_refusal(rt, refusal),
    }
}

// Document 01, 'Given whole': Num and Add over the literal 5.
fn whole(rt: &impl Print) -> io::Result<()> {
    let file = [
        17u8, 64, 48, 4, 0, 0, 0, 0, 0, 0, 0, 20, 16, 211, 157, 91, 64, 4, 35, 65, 100, 100, 128,
        0, 0, 0, 0, 0, 0, 1, 0, 32, 0, 1, 128, 0, 0, 0, 64, 0, 0, 4, 8, 2, 1, 1, 0,
    ];
    best(rt, &file, 2)?;
    best(rt, &file, 3)
}

// Wrap(0)->0 at no cost, then Leaf()->0.
fn zero_loop(rt: &impl Print) -> io::Result<()> {
    let file = [
        16u8, 192, 16, 0, 34, 43, 185, 48, 184, 64, 0, 0, 0, 0, 0, 0, 0, 0, 8, 8, 152, 202, 194,
        204, 0, 0, 8, 0, 0, 0, 2, 0, 0,
    ];
    best(rt, &file, 0)?;
    variants(rt, &file)
}

// Only Wrap(0)->0.
fn only_loop(rt: &impl Print) -> io::Result<()> {
    let file = [
        16u8, 192, 16, 0, 18, 43, 185, 48, 184, 64, 0, 0, 0, 0, 0, 0, 0, 0, 8, 0, 8, 0, 0, 0,
    ];
    best(rt, &file, 0)?;
    variants(rt, &file)
}

fn main(rt: HostRuntime) -> io::Result<()> {
    whole(&rt)?;
    zero_loop(&rt)?;
    only_loop(&rt)
}
