// Makes each call of data/calls.bin on its store, with `text::plain_text` or `text::let_text`, and writes the answer:
// `plain` and the length, or `let`, the next unused count and the length, and the text on the lines after it; or else
// `refused` and the number. Calls and answers are the oracle's; scripts/text-calls takes them from
// examples/recorded/terms-0.bin, and from oracle/text-runs for stores of 1,024 records and 128 names.
//
// In calls.bin each call stands after its length, two bytes, the higher first. Its bytes are: 0 for plain text or 1 for
// let text, and 2 more where the store is that of the call before; the zero flag; the lengths of prefix and hint; two
// bytes each, how many records are lent, terms, symbols, the term and the room; eight bytes, the start count; prefix;
// hint; and the store, if it is the call's own: two bytes for each number of the records, eight bytes for each literal,
// and the names.
#![tactic(auto)]

ghost use Rattle.std.specs.Prelude.{◌+◌, ◌≤◌, length};

use std::fs::File;
use std::io;
use term_layout::lent::Lent;
use text_whole::Naming;

// The number of two bytes at place `p`.
fn pair(s: &[u8], p: usize) -> usize
    requires { p + 2 ≤ length s.now }
{
    usize::from(s[p]) * 256 + usize::from(s[p + 1])
}

// The number of `n` bytes at place `p`, or 0 where the bytes are not there.
fn number(s: &[u8], p: usize, n: usize) -> u64
    requires { (p ≤ 1000000) × (n ≤ 8) }
{
    if s.len() < p + n {
        return 0;
    }
    bits::gather(s, p * 8, n * 8)
}

// The numbers of the records, from place `a` on.
fn load_records(records: &mut [u64], s: &[u8], a: usize)
    requires { (a ≤ 500000) × (length records.old ≤ 20000) }
{
    for (j, x) in records.iter_mut().enumerate() {
        *x = number(s, a + j * 2, 2);
    }
}

// The literals, from place `a` on.
fn load_literals(literals: &mut [i64], s: &[u8], a: usize)
    requires { (a ≤ 500000) × (length literals.old ≤ 2000) }
{
    for (j, x) in literals.iter_mut().enumerate() {
        *x = file_rules::signed_of(number(s, a + j * 8, 8));
    }
}

fn write_refused(rt: &impl Print, why: refusal::Refusal) -> io::Result<()> {
    println!(rt; "refused {}", refusal::number(why))
}

// A length, and that much of `out` on the lines after it.
fn write_text(rt: &impl Print, out: &[u8], n: usize) -> io::Result<()> {
    println!(rt; "{n}")?;
    if n <= out.len() {
        rt.write_all(&out[..n])?;
    }
    println!(rt;)
}

// The call for plain text that `s` describes.
fn run_plain(rt: &impl Print, s: &[u8], lent: &Lent, out: &mut [u8]) -> io::Result<()>
    requires { 22 ≤ length s.now }
{
    match text::plain_text(lent, pair(s, 10), out) {
        Ok(length) => {
            print!(rt; "plain ")?;
            write_text(rt, out, length)
        }
        Err(why) => write_refused(rt, why),
    }
}

// The call for let text that `s` describes; prefix and hint stand in `stem`.
fn run_let(rt: &impl Print, s: &[u8], stem: &[u8], lent: &Lent, out: &mut [u8]) -> io::Result<()>
    requires { 22 ≤ length s.now }
{
    let cut = usize::from(s[2]);
    if stem.len() < cut {
        return Ok(());
    }
    let naming = Naming {
        prefix: &stem[..cut],
        hint: &stem[cut..],
        start: number(s, 14, 8),
        bare: s[1] == 1,
    };
    match text::let_text(lent, pair(s, 10), &naming, out) {
        Ok(text) => {
            print!(rt; "let {} ", text.next)?;
            write_text(rt, out, text.length)
        }
        Err(why) => write_refused(rt, why),
    }
}

// The call that `s` describes, on its store.
fn run(rt: &impl Print, s: &[u8], stem: &[u8], lent: &Lent, out: &mut [u8]) -> io::Result<()>
    requires { 22 ≤ length s.now }
{
    let room = pair(s, 12);
    if out.len() < room {
        return Ok(());
    }
    if s[0] % 2 == 0 {
        return run_plain(rt, s, lent, &mut out[..room]);
    }
    run_let(rt, s, stem, lent, &mut out[..room])
}

// Whether a call brings its own store.
fn has_store(s: &[u8]) -> bool {
    s.first().is_some_and(|b| *b < 2)
}

// Lays out the store of the call `held`, and makes the call that `s` describes on it.
fn lay(rt: &impl Print, held: &[u8], s: &[u8], out: &mut [u8]) -> io::Result<()> {
    if held.len() < 22 {
        return Ok(());
    }
    if s.len() < 22 {
        return Ok(());
    }
    let q = 22 + usize::from(s[2]) + usize::from(s[3]);
    let p = 22 + usize::from(held[2]) + usize::from(held[3]);
    let r = pair(held, 4);
    if s.len() < q {
        return Ok(());
    }
    if 1040 < r {
        return Ok(());
    }
    let m = r * term_layout::WIDTH;
    let a = p + m * 2;
    let b = a + r * 8;
    if held.len() < b {
        return Ok(());
    }
    let mut records = [0u64; 11440];
    load_records(&mut records, held, p);
    let mut literals = [0i64; 1040];
    load_literals(&mut literals, held, a);
    let lent = Lent {
        records: &records[..m],
        literals: &literals[..r],
        names: &held[b..],
        terms: pair(s, 6),
        symbols: pair(s, 8),
    };
    run(rt, s, &s[22..q], &lent, out)
}

// Makes the call that `call` describes on the store of the call from `b` to `c` of `s`.
fn lay_on(
    rt: &impl Print,
    s: &[u8],
    b: usize,
    c: usize,
    call: &[u8],
    out: &mut [u8],
) -> io::Result<()> {
    if c < b {
        return Ok(());
    }
    if s.len() < c {
        return Ok(());
    }
    lay(rt, &s[b..c], call, out)
}

// Makes each call of `s`; the store of the last that brought one stands from `b` to `c`.
fn run_all(rt: &impl Print, s: &[u8], out: &mut [u8]) -> io::Result<()> {
    let mut p: usize = 0;
    let mut b: usize = 0;
    let mut c: usize = 0;
    while p < s.len() {
        if s.len() - p < 2 {
            return Ok(());
        }
        let a = p + 2;
        let n = pair(s, p);
        if s.len() - a < n {
            return Ok(());
        }
        let e = a + n;
        if has_store(&s[a..e]) {
            b = a;
            c = e;
        }
        lay_on(rt, s, b, c, &s[a..e], out)?;
        p = e;
    }
    Ok(())
}

fn main(rt: HostRuntime) -> io::Result<()> {
    let mut file = match File::open(&rt, "calls.bin") {
        Ok(file) => file,
        Err(why) => return eprintln!(rt; "calls.bin: {why}"),
    };
    let mut buffer = [0u8; 327680];
    let n = input::read_full(&mut file, &mut buffer);
    drop(file);
    let mut out = [0u8; 65536];
    run_all(&rt, &buffer[..n], &mut out)
}
