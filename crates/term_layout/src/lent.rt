// A store as it is lent to be read, before anyone has checked it. Assumes nothing.

// The records and literals of `terms` terms, and the names of `symbols` symbols.
#[derive(Clone, Copy)]
pub struct Lent<'a> {
    pub records: &'a [u64],
    pub literals: &'a [i64],
    pub names: &'a [u8],
    pub terms: usize,
    pub symbols: usize,
}
