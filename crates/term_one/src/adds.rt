// A list of adds as it is lent. Assumes nothing.

// A record of the flat form for each add; the literal of add `e`, at place `e` of `values`; the entries of the names.
#[derive(Clone, Copy)]
pub struct Adds<'a> {
    pub adds: &'a [u64],
    pub values: &'a [i64],
    pub labels: &'a [u8],
}
