// The term record. What a lent store is, and when it is well formed, is defined in specs/ and published to every
// crate above.
#![tactic(auto)]

// A term record: its kind (0 literal, 1 variable, 2 application), the number of its symbol, the count of its children,
// its literal, and up to eight child numbers. What its kind does not use is zero.
#[repr(C)]
#[derive(Clone, Copy)]
pub struct Term {
    pub kind: u64,
    pub symbol: u64,
    pub count: u64,
    pub literal: i64,
    pub children: [u64; 8],
}
