// Runs `name::is_valid` on every name of one byte and on names of 0 to 33 letters, and writes a 1 or a 0 for each.
// The file `stdout` beside src/ holds what document 01 says of them, made by a script that knows nothing of this code.
#![tactic(auto)]

use std::io;

fn digit(yes: bool) -> u8 {
    if yes { b'1' } else { b'0' }
}

fn one_byte_names(rt: &impl Print) -> io::Result<()> {
    let mut line = [b'\n'; 257];
    for b in 0..=255u8 {
        line[usize::from(b)] = digit(name::is_valid(&[b]));
    }
    rt.write_all(&line)
}

fn names_by_length(rt: &impl Print) -> io::Result<()> {
    let letters = [b'a'; 33];
    let mut line = [b'\n'; 35];
    for n in 0..34 {
        line[n] = digit(name::is_valid(&letters[..n]));
    }
    rt.write_all(&line)
}

fn main(rt: HostRuntime) -> io::Result<()> {
    one_byte_names(&rt)?;
    names_by_length(&rt)
}
