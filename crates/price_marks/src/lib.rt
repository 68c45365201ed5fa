// The relaxation over flat rows that looks only at marked rows, equal to the definitions of the crate `choice_rules`.
// A row whose children's costs and ranks have not changed since it was last looked at cannot improve its class.
#![tactic(auto)]

pub mod users; // users.rt: who uses which class
pub mod links; // links.rt: of each class the children that are it, as chains
pub mod marks; // marks.rt: marks of rows and of blocks of rows
pub mod rows; // rows.rt: the relaxation of one marked row
pub mod passes; // passes.rt: one pass over the marked rows
pub mod run; // run.rt: plain passes over few rows, marked ones over many
