// A call's own copy of a lent store. Assumes nothing.
ghost use Rattle.std.specs.Prelude.{◌≤◌};
ghost use Rattle.name.specs.Entries.{table_length};
ghost use Rattle.term_rules.specs.Lent.{records_length};

// A call's own copy of the records: their numbers and a literal each, and how many there are.
#[derive(Clone, Copy)]
pub struct Flat {
    pub records: [u64; term_layout::RECORDS],
    pub literals: [i64; 1024],
    pub room: usize,
}

// A call's own copy of a lent store: the records and the names' entries, and how many of the records' numbers and of
// the entries' bytes the store has.
#[derive(Clone, Copy)]
pub struct StoreCopy {
    pub flat: Flat,
    pub names: [u8; name::TABLE],
    pub numbers: usize,
    pub bytes: usize,
    pub ghost within: { (flat.room ≤ 1024) × ((numbers ≤ records_length 1024) × (bytes ≤ table_length)) },
}
