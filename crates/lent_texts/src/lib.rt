// Both texts on a lent slice of term records and a lent slice of name entries.
#![tactic(auto)]

pub mod plain; // plain.rt: plain text on a lent slice of term records and a lent slice of name entries
pub mod lets; // lets.rt: let text on a lent slice of term records and a lent slice of name entries
