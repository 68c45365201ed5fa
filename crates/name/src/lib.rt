// Names and symbol tables: which names are valid, where a name stands, and how one is put there.
#![tactic(auto)]

ghost use Rattle.std.specs.Prelude.{◌≡◌, true, false, ℕ, ◌+◌, ◌≤◌, length, get_or, take, drop};
ghost use Rattle.std.specs.Int.{w64, from_le_bytes};
ghost use Rattle.name.specs.Name.{allowed, all_allowed, valid, same};
ghost use Rattle.name.specs.Entries.{
  entries_length,
  entry_room,
  HasEntry,
  length_at,
  name_at,
  padding_at,
  entry,
  find_name,
  put_name,
  InEntries,
  Entries,
};

// The bytes of an entry: a name's length and at most 31 bytes.
pub const WIDTH: usize = 32;

// The bytes of 128 entries, the most that a table has.
pub const TABLE: usize = 4096;

#[tactic(auto, unfolding(crate::specs::Name::allowed))]
fn is_allowed(b: u8) -> bool
    ensures { result ≡ allowed b }
{
    33 <= b && b <= 126 && b != b'(' && b != b')' && b != b'"' && b != b';'
}

// Whether every byte of `s` is allowed in a name.
pub fn all_allowed(s: &[u8]) -> bool
    ensures { result ≡ all_allowed s.now }
{
    s.iter().all(|b| is_allowed(*b))
}

// Whether `s` is a valid name.
#[tactic(auto, unfolding(crate::specs::Name::valid))]
pub fn is_valid(s: &[u8]) -> bool
    ensures { result ≡ valid s.now }
{
    1 <= s.len() && s.len() <= 31 && all_allowed(s)
}

// How many bytes `n` entries take.
pub fn entries_length(n: usize) -> usize
    requires { n ≤ 128 }
    ensures { result ≡ entries_length n }
{
    n * WIDTH
}

// How many entries fit `n` bytes.
pub fn entry_room(n: usize) -> usize
    ensures { result ≡ entry_room n }
{
    n / WIDTH
}

// The length that stands at entry `k`.
pub fn length_of(table: &[u8], k: usize) -> usize
    requires { HasEntry table.now k }
    ensures { result ≡ length_at table.now k }
{
    usize::from(table[k * WIDTH])
}

// The name at entry `k`.
pub fn name_of(table: &[u8], k: usize) -> &[u8]
    requires { InEntries table.now k }
    ensures { result.now ≡ name_at table.now k }
{
    let at = k * WIDTH + 1;
    &table[at..at + length_of(table, k)]
}

// What stands past the name at entry `k`.
pub fn padding_of(table: &[u8], k: usize) -> &[u8]
    requires { InEntries table.now k }
    ensures { result.now ≡ padding_at table.now k }
{
    let at = k * WIDTH;
    &table[at + 1 + length_of(table, k)..at + WIDTH]
}

// The eight bytes of `s` from `at` on, as one number.
fn word_at(s: &[u8], at: usize) -> u64
    requires { at + 8 ≤ length s.now }
    ensures { result ≡ from_le_bytes w64 (take 8 (drop at s.now)) }
{
    let b = &s[at..at + 8];
    u64::from_le_bytes([b[0], b[1], b[2], b[3], b[4], b[5], b[6], b[7]])
}

// Whether `a` and `b` have the same bytes. Names often begin alike and differ at the end, or the other way round: short
// ones are compared from the end on, and of long ones the last eight bytes, the first eight, and then all.
pub fn are_same(a: &[u8], b: &[u8]) -> bool
    ensures { result ≡ same a.now b.now }
{
    let n = a.len();
    if n != b.len() {
        return false;
    }
    if n < 8 {
        for i in (0..n).rev() {
            if a[i] != b[i] {
                return false;
            }
        }
        return true;
    }
    if word_at(a, n - 8) != word_at(b, n - 8) {
        return false;
    }
    if word_at(a, 0) != word_at(b, 0) {
        return false;
    }
    a == b
}

// The first of the first `n` entries of `table` that has the name.
pub fn find(table: &[u8], n: usize, name: &[u8]) -> Option<usize>
    requires { Entries table.now n }
    ensures { result ≡ find_name table.now n name.now }
{
    for k in 0..n {
        if are_same(name_of(table, k), name) {
            return Some(k);
        }
    }
    None
}

// Puts the name at entry `k`.
pub fn put(table: &mut [u8], k: usize, name: &[u8])
    requires has_entry { HasEntry table.old k }
    requires name_len_bound { length name.now ≤ 31 }
    ensures { table.new ≡ put_name table.old k name.now }
{
    let mut entry = [0u8; WIDTH];
    entry[0] = name.len() as u8;
    entry[1..=name.len()].copy_from_slice(name);
    let at = k * WIDTH;
    table[at..at + WIDTH].copy_from_slice(&entry);
}
