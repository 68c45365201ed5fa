// Document 01's program: a query and a table file on standard input, the answer on standard output. The buffer has a
// place more than the 21,388 bytes that an input can have without being refused. What it holds has the answer of the
// whole input: `same_reply` of program_rules/specs/Promises.antt. An input that cannot be read to its end gets no
// answer, and an answer that cannot be written is lost: either is said on standard error, and the exit status is 0
// then too.
#![tactic(auto)]

use std::io::Read;

// Whether a read says that the input has ended: `input::read_full` stops in the same way where a read fails.
fn at_end(stdin: &mut impl Read) -> bool {
    let mut next = [0u8; 1];
    matches!(stdin.read(&mut next), Ok(0))
}

fn complain(rt: &impl Eprint, sentence: &str) {
    let _ = rt.eprint(sentence);
}

fn main(rt: HostRuntime) {
    let mut stdin = rt.stdin();
    let mut input = [0u8; 21389];
    let n = input::read_full(&mut stdin, &mut input);
    if n < 21389 {
        if !at_end(&mut stdin) {
            complain(
                &rt,
                "needlevale: standard input cannot be read to its end\n",
            );
            return;
        }
    }
    let mut out = [0u8; 16384];
    // No refusal: the buffer has room for every output.
    if let Ok(k) = program::respond(&input[..n], &mut out) {
        if rt.write_all(&out[..k]).is_err() {
            complain(&rt, "needlevale: standard output cannot be written\n");
        }
    }
}
