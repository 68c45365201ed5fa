// How a term record lies in the lent numbers: its parts read, and the one place where a record is put. No crate above
// this one knows where in a record a part stands, or how many numbers a record has.
#![tactic(auto)]

ghost use Rattle.std.specs.Prelude.{◌≡◌, ◌≤◌, length, set, drop};
ghost use Rattle.term_rules.specs.Lent.{
  records_length,
  record_room,
  HasRecord,
  kind_at,
  symbol_no,
  arity_at,
  places_at,
  kids_at,
  InRecords,
  put_record,
};
ghost use Rattle.term_layout.specs.Padded.{padded};

pub mod lent; // lent.rt: a store as it is lent to be read, checked or not
pub mod store; // store.rt: a lent store that is well formed, to be read

// A record's numbers: kind, symbol, count of children, eight child places.
pub const WIDTH: usize = 11;

// The numbers of 1,024 records, the most that a store has.
pub const RECORDS: usize = 11264;

// How many numbers `n` records take.
pub fn records_length(n: usize) -> usize
    requires { n ≤ 1024 }
    ensures { result ≡ records_length n }
{
    n * WIDTH
}

// How many records fit `n` numbers.
pub fn record_room(n: usize) -> usize
    ensures { result ≡ record_room n }
{
    n / WIDTH
}

// The kind of record `i`: 0 literal, 1 variable, 2 application.
pub fn kind_of(records: &[u64], i: usize) -> u64
    requires { HasRecord records.now i }
    ensures { result ≡ kind_at records.now i }
{
    records[i * WIDTH]
}

// The number of its symbol.
pub fn symbol_of(records: &[u64], i: usize) -> u64
    requires { HasRecord records.now i }
    ensures { result ≡ symbol_no records.now i }
{
    records[i * WIDTH + 1]
}

// The count of its children.
pub fn count_of(records: &[u64], i: usize) -> u64
    requires { HasRecord records.now i }
    ensures { result ≡ arity_at records.now i }
{
    records[i * WIDTH + 2]
}

// Its eight child places.
pub fn places_of(records: &[u64], i: usize) -> &[u64]
    requires { HasRecord records.now i }
    ensures { result.now ≡ places_at records.now i }
{
    let at = i * WIDTH + 3;
    &records[at..at + 8]
}

// Its children.
pub fn children_of(records: &[u64], i: usize) -> &[u64]
    requires has_record { HasRecord records.now i }
    requires i_bound { arity_at records.now i ≤ 8 }
    ensures { result.now ≡ kids_at records.now i }
{
    let at = i * WIDTH + 3;
    &records[at..at + count_of(records, i) as usize]
}

// The child places past its children.
pub fn unused_of(records: &[u64], i: usize) -> &[u64]
    requires has_record { HasRecord records.now i }
    requires i_bound { arity_at records.now i ≤ 8 }
    ensures { result.now ≡ drop (arity_at records.now i) (places_at records.now i) }
{
    let at = i * WIDTH + 3;
    &records[at + count_of(records, i) as usize..at + 8]
}

// Puts a record at `i`, with zeros past its children.
pub fn put_record(
    records: &mut [u64],
    literals: &mut [i64],
    i: usize,
    kind: u64,
    symbol: u64,
    count: u64,
    literal: i64,
    children: &[u64],
)
    requires in_records { InRecords records.old literals.old i }
    requires children_len_bound { length children.now ≤ 8 }
    ensures records_after { records.new
        ≡ put_record records.old i (padded kind symbol count literal children.now) }
    ensures literals_after { literals.new ≡ set literals.old i literal }
{
    literals[i] = literal;
    let mut record = [0u64; WIDTH];
    record[0] = kind;
    record[1] = symbol;
    record[2] = count;
    record[3..3 + children.len()].copy_from_slice(children);
    let at = i * WIDTH;
    records[at..at + WIDTH].copy_from_slice(&record);
}
