// The reader of a function's name: its length, its bytes as one field, and that no function before has it.
#![tactic(auto)]

ghost use Rattle.std.specs.Prelude.{◌≡◌, ◌+◌, ◌*◌, ◌^◌, ◌<◌, ◌≤◌, length, take};
ghost use Rattle.bits.specs.Got.{pick};
ghost use Rattle.name.specs.Entries.{table_length, HasEntry, Entries, put_name};
ghost use Rattle.file_rules.specs.Functions.{bytes_at, name_at};
ghost use Rattle.file_rules.specs.Reading.{Reads};
ghost use Rattle.file_names.specs.Name.{NameIs, is_free, free_name_at, PutName};

use refusal::Refusal;

// The `n` bytes from position `at`, to the front of `buffer`.
fn read_bytes(s: &[u8], at: usize, n: usize, buffer: &mut [u8])
    requires n_bound { at + 8 * n < 2 ^ 63 }
    requires n_bound_2 { at + 8 * n ≤ 8 * length s.now }
    requires n_in_bounds { n ≤ length buffer.old }
    ensures { take n buffer.new ≡ bytes_at s.now at n }
{
    for j in 0..n {
        buffer[j] = bits::gather(s, at + 8 * j, 8) as u8;
    }
}

// The name at position `at`, to the front of `buffer`: its length, and the position after it.
fn read_text(s: &[u8], at: usize, buffer: &mut [u8]) -> Result<(usize, usize), Refusal>
    requires at_bound { at < 2 ^ 40 }
    requires in_bounds { 31 ≤ length buffer.old }
    ensures { NameIs (name_at s.now at) result buffer.new }
{
    let (v, p) = bits::read(s, at, 5)?;
    if v == 0 {
        return Err(Refusal::BadName);
    }
    let n = v as usize;
    if !bits::has(s, p, 8 * n) {
        return Err(Refusal::Short);
    }
    read_bytes(s, p, n, buffer);
    if !name::all_allowed(&buffer[..n]) {
        return Err(Refusal::BadName);
    }
    Ok((n, p + 8 * n))
}

// Puts the name at entry `i`, unless one of the `i` entries before has it.
fn put_new(entries: &mut [u8], i: usize, name: &[u8]) -> bool
    requires entries { Entries entries.old i }
    requires has_entry { HasEntry entries.old i }
    requires name_len_bound { length name.now ≤ 31 }
    ensures value { result ≡ is_free entries.old i name.now }
    ensures entries_after { entries.new ≡ pick result (put_name entries.old i name.now) entries.old }
{
    match name::find(entries, i, name) {
        Some(_) => false,
        None => {
            name::put(entries, i, name);
            true
        }
    }
}

// The name at position `at`, into entry `i`, where none of the `i` entries before has it.
pub fn read_name(s: &[u8], at: usize, i: usize, entries: &mut [u8]) -> Result<usize, Refusal>
    requires at_bound { at < 2 ^ 40 }
    requires i_bound { i < 128 }
    requires entries { Entries entries.old i }
    requires entries_len { length entries.old ≡ table_length }
    ensures { Reads (free_name_at s.now entries.old i at) result
        (PutName i entries.old entries.new) }
{
    let mut buffer = [0u8; name::WIDTH];
    let (n, q) = read_text(s, at, &mut buffer)?;
    if !put_new(entries, i, &buffer[..n]) {
        return Err(Refusal::DupName);
    }
    Ok(q)
}
