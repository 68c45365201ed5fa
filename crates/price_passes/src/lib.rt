// The relaxation over flat rows, equal to the definitions of the crate `choice_rules` at 2^64-1.
// Row i has the output outputs[i], the head cost heads[i] and the children children[starts[i]..starts[i + 1]];
// a child below 512 is the class of that number, 512 + i the literal of index i.
#![tactic(auto)]

pub mod flat; // flat.rt: the rows as they are read
pub mod children; // children.rt: the cost and rank of one child
pub mod rows; // rows.rt: the cost of one row, and its relaxation
pub mod passes; // passes.rt: passes until one changes nothing
