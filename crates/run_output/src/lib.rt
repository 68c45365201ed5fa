// What the programs over lent structs write with: numbers, refusals and texts, to standard output. Assumes nothing.
#![tactic(auto)]

use refusal::Refusal;
use std::io;
use text_whole::LetText;

// The last decimal digit of a number.
pub fn digit(n: u64) -> u8 {
    b'0' + (n % 10) as u8
}

// The first `n` numbers, a space before each.
pub fn write_list(rt: &impl Print, list: &[u64], n: usize) -> io::Result<()> {
    for x in list.iter().take(n) {
        print!(rt; " {x}")?;
    }
    Ok(())
}

// A line of a word and numbers.
pub fn write_line(rt: &impl Print, word: &[u8], list: &[u64]) -> io::Result<()> {
    rt.write_all(word)?;
    write_list(rt, list, list.len())?;
    println!(rt;)
}

pub fn write_refusal(rt: &impl Print, refusal: Refusal) -> io::Result<()> {
    println!(rt; "refused {}", refusal::number(refusal))
}

fn write_byte(rt: &impl Print, b: u8) -> io::Result<()> {
    if b == b'\n' {
        return print!(rt; "%0A");
    }
    rt.write_all(&[b])
}

// The first `n` bytes, a newline as `%0A`.
fn write_text(rt: &impl Print, out: &[u8], n: usize) -> io::Result<()> {
    print!(rt; "{n} ")?;
    for b in out.iter().take(n) {
        write_byte(rt, *b)?;
    }
    println!(rt;)
}

// What plain text answered, and the text that it left in `out`.
pub fn write_plain(rt: &impl Print, answer: Result<usize, Refusal>, out: &[u8]) -> io::Result<()> {
    match answer {
        Ok(length) => {
            print!(rt; "plain ")?;
            write_text(rt, out, length)
        }
        Err(refusal) => write_refusal(rt, refusal),
    }
}

// The same of let text.
pub fn write_let(rt: &impl Print, answer: Result<LetText, Refusal>, out: &[u8]) -> io::Result<()> {
    match answer {
        Ok(text) => {
            print!(rt; "let {} ", text.next)?;
            write_text(rt, out, text.length)
        }
        Err(refusal) => write_refusal(rt, refusal),
    }
}
