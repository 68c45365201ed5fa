// A lent store that is well formed, to be read. Whoever makes one has checked it, so no function that takes one asks
// for it. Assumes nothing.
ghost use Rattle.std.specs.Prelude.{◌≡◌, true};
ghost use Rattle.term_rules.specs.Lent.{store};
ghost use Rattle.term_rules.specs.WellFormed.{well_formed};

// The records and literals of `terms` terms, and the names of `symbols` symbols.
#[derive(Clone, Copy)]
pub struct Store<'a> {
    pub records: &'a [u64],
    pub literals: &'a [i64],
    pub names: &'a [u8],
    pub terms: usize,
    pub symbols: usize,
    pub ghost sound: { well_formed (store records.now literals.now names.now terms symbols) ≡ true },
}
