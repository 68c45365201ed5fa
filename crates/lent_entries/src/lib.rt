// The symbol table as a lent slice of name entries, copied into bytes of a call's own and back.
#![tactic(auto)]

ghost use Rattle.std.specs.Prelude.{◌≡◌, ◌<◌, ◌≤◌, min, [], length, get_or};
ghost use Rattle.name.specs.Entries.{entry_width, table_length, HasEntry, entry_at, put_entry};
ghost use Rattle.lent_entries.specs.Entries.{LoadedNames, entries_after};

// A name's entry: its length, its bytes, and zeros.
pub type Name = [u8; name::WIDTH];

// Puts the entry at `k`.
fn put_entry(names: &mut [u8], k: usize, e: &[u8])
    requires { HasEntry names.old k × (length e.now ≡ entry_width) }
    ensures { names.new ≡ put_entry names.old k e.now }
{
    let at = k * name::WIDTH;
    names[at..at + name::WIDTH].copy_from_slice(e);
}

// Entry `k`.
fn entry_of(names: &[u8], k: usize) -> Name
    requires { HasEntry names.now k }
    ensures { result ≡ entry_at names.now k }
{
    let at = k * name::WIDTH;
    let mut e = [0u8; name::WIDTH];
    e.copy_from_slice(&names[at..at + name::WIDTH]);
    e
}

// Copies the lent entries into `names`, and says how many there are.
pub fn load_names(ns: &[Name], names: &mut [u8]) -> usize
    requires { table_length ≤ length names.old }
    ensures { LoadedNames ns.now names.old result names.new }
{
    let n = ns.len().min(128);
    for (k, e) in ns[..n].iter().enumerate() {
        put_entry(names, k, e);
    }
    n
}

// Copies the entries back.
pub fn unload_names(ns: &mut [Name], names: &[u8])
    requires { table_length ≤ length names.now }
    ensures { ns.new ≡ entries_after ns.old names.now }
{
    let n = ns.len().min(128);
    for k in 0..n {
        ns[k] = entry_of(names, k);
    }
}
