// The readers of a table file's sorts, of its literals, and of a function's fields after its name.
#![tactic(auto)]

pub mod sorts; // sorts.rt: the reader of a table file's sorts
pub mod literals; // literals.rt: the reader of a table file's literals
pub mod function_fields; // function_fields.rt: cost, flags, output sort and argument sorts of a function
