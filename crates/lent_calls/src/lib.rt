// A caller for each call on lent structs, for the programs that run them.
#![tactic(auto)]

pub mod steps; // steps.rt: each call of the store and both texts on lent structs as a step of a run, which holds a store of 1,024 records with its counts
pub mod choices; // choices.rt: best and variants on lent structs as steps of a run, which holds a store of 1,024 records with its counts
