// The term store as a lent slice of term records, with its symbol table as a lent slice of name entries.
#![tactic(auto)]

ghost use Rattle.std.specs.Prelude.{◌≡◌, ◌<◌, ◌≤◌, ◌++◌, length, get_or, set, drop};
ghost use Rattle.term_rules.specs.Lent.{InRecords, put_record};
ghost use Rattle.term_layout.specs.Sound.{lent_of};
ghost use Rattle.lent.specs.Records.{no_term, Eight, records_in};
ghost use Rattle.lent.specs.Copies.{Loaded, CopyOf, copied};

pub use copied::{Flat, StoreCopy};
use lent_entries::Name;
use term_layout::lent::Lent;
use term_rules::Term;

pub mod copied; // copied.rt: a call's own copy of a lent store

// Record `i`.
pub fn record_at(ts: &[Term], i: usize) -> Term
    requires { i < length ts.now }
    ensures { (result ≡ get_or ts.now i no_term) × Eight result }
{
    let t = ts[i];
    let children = t.children;
    Term { children, ..t }
}

// Puts the record at `i`.
pub fn put_at(ts: &mut [Term], i: usize, t: Term)
    requires { i < length ts.old }
    ensures { ts.new ≡ set ts.old i t }
{
    ts[i] = t;
}

// Puts the record at `i` of the flat arrays.
fn put_flat(flat: &mut Flat, i: usize, t: Term)
    requires { InRecords flat.old.records flat.old.literals i × Eight t }
    ensures { flat.new
        ≡ record {
          records = put_record flat.old.records i t;
          literals = set flat.old.literals i t.literal;
          room = flat.old.room;
        } }
{
    term_layout::put_record(
        &mut flat.records,
        &mut flat.literals,
        i,
        t.kind,
        t.symbol,
        t.count,
        t.literal,
        &t.children,
    );
}

// Copies the lent records into arrays of the call's own.
pub fn load(ts: &[Term], flat: &mut Flat)
    ensures { Loaded ts.now flat.new }
{
    let room = ts.len().min(1024);
    flat.room = room;
    for i in 0..room {
        put_flat(flat, i, record_at(ts, i));
    }
}

// Copies the records back.
pub fn unload(ts: &mut [Term], f: &Flat)
    requires { (f.now.room ≤ length ts.old) × (f.now.room ≤ 1024) }
    ensures { ts.new
        ≡ records_in f.now.records f.now.literals f.now.room ++ drop f.now.room ts.old }
{
    for i in 0..f.room {
        put_at(ts, i, term_record::record_at(&f.records, &f.literals, i));
    }
}

impl StoreCopy {
    // A copy of nothing, for `copy_of` to fill: a call makes it where it stands, so that its arrays are never moved.
    pub fn blank() -> StoreCopy {
        StoreCopy {
            flat: Flat {
                records: [0; term_layout::RECORDS],
                literals: [0; 1024],
                room: 0,
            },
            names: [0; name::TABLE],
            numbers: 0,
            bytes: 0,
        }
    }

    // The copy as a store of so many terms and symbols, to be read.
    pub fn lent(&self, terms: usize, symbols: usize) -> Lent<'_>
        ensures { lent_of result ≡ copied self.now terms symbols }
    {
        Lent {
            records: &self.flat.records[..self.numbers],
            literals: &self.flat.literals[..self.flat.room],
            names: &self.names[..self.bytes],
            terms,
            symbols,
        }
    }
}

// Copies the lent records and the lent entries into `copy`.
pub fn copy_of(ts: &[Term], ns: &[Name], copy: &mut StoreCopy)
    ensures { CopyOf ts.now ns.now copy.new }
{
    load(ts, &mut copy.flat);
    let entries = lent_entries::load_names(ns, &mut copy.names);
    copy.numbers = copy.flat.room * term_layout::WIDTH;
    copy.bytes = entries * name::WIDTH;
}
