// Reads each file of data/files.bin with `file::read` and writes its verdict, one digit a file: 0 where it is
// accepted, else the refusal's number. The files and the verdicts in `stdout` are the recorded answers of the oracle
// (examples/recorded). In files.bin each file stands after its length, two bytes, the higher first.
#![tactic(auto)]

ghost use Rattle.std.specs.Prelude.{◌≡◌, ◌+◌, ◌≤◌, length, take};

use file_rules::Table;
use std::fs::File;
use std::io;

// 0 where the file is accepted, else the number of its refusal.
fn verdict(file: &[u8]) -> u8 {
    let mut table = Table::empty();
    match file::read(file, &mut table) {
        Ok(_) => 0,
        Err(why) => refusal::number(why),
    }
}

// A digit; `?` for what is none.
fn digit(n: u8) -> u8 {
    if n < 10 { b'0' + n } else { b'?' }
}

// The length that stands at place `p`.
fn length_at(s: &[u8], p: usize) -> usize
    requires { p + 2 ≤ length s.now }
{
    usize::from(u16::from_be_bytes([s[p], s[p + 1]]))
}

// Writes the verdict of each file of `s` to the front of `out`; how many there are.
fn verdicts(s: &[u8], out: &mut [u8]) -> usize
    ensures upper_bound { result ≤ length out.new }
    ensures value { result ≡ length (take result out.new) }
{
    let mut p = 0;
    for k in 0..out.len() {
        if s.len() - p < 2 {
            return k;
        }
        let a = p + 2;
        let n = length_at(s, p);
        if s.len() - a < n {
            return k;
        }
        let e = a + n;
        out[k] = digit(verdict(&s[a..e]));
        p = e;
    }
    out.len()
}

fn main(rt: HostRuntime) -> io::Result<()> {
    let mut file = match File::open(&rt, "files.bin") {
        Ok(file) => file,
        Err(why) => return eprintln!(rt; "files.bin: {why}"),
    };
    let mut buffer = [0u8; 262144];
    let n = input::read_full(&mut file, &mut buffer);
    drop(file);
    let mut out = [0u8; 4096];
    let k = verdicts(&buffer[..n], &mut out);
    rt.write_all(&out[..k])?;
    rt.write_all(b"\n")
}
