// The program's answers to many inputs in one run: a stream of inputs on standard input, the stream of their answers
// on standard output. A stream has for each item its length, four bytes, the lowest first, then its bytes. It ends
// with the input, at an item that is longer than 32,768 bytes or cut off, and after 1,000,000,000 items.
#![tactic(auto)]

use std::io::Read;

// Writes the answer to `input`; whether it could be written.
fn answer_item(rt: &impl Print, input: &[u8]) -> bool {
    let mut out = [0u8; 16384];
    // No refusal: the buffer has room for every output.
    let Ok(k) = program::respond(input, &mut out) else {
        return false;
    };
    rt.write_all(&k.to_le_bytes()[..4]).is_ok() && rt.write_all(&out[..k]).is_ok()
}

// Answers the next item; whether there was one.
fn one(rt: &impl Print, stdin: &mut impl Read) -> bool {
    let mut head = [0u8; 4];
    if input::read_full(stdin, &mut head) < 4 {
        return false;
    }
    let n = u32::from_le_bytes(head) as usize;
    let mut input = [0u8; 32768];
    if input.len() < n {
        return false;
    }
    input::read_full(stdin, &mut input[..n]) == n && answer_item(rt, &input[..n])
}

fn main(rt: HostRuntime) {
    let mut stdin = rt.stdin();
    for _ in 0..1000000000 {
        if !one(&rt, &mut stdin) {
            return;
        }
    }
}
