// The program's query and the lines that it writes. The definitions, of its reply too, are in specs/.
#![tactic(auto)]

pub mod queries; // queries.rt: the query that stands before the table file
pub mod headlines; // headlines.rt: the lines of numbers that the program writes: their lengths, and their bytes
