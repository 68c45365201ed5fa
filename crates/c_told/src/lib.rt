// How the answers of the calls are told to a caller in C: each in one number or in one struct, with a refusal's number
// below zero. The crate `needlevale_c` has the calls.
#![tactic(auto)]

pub mod choices; // choices.rt: the answers of best and variants
pub mod codes; // codes.rt: a refusal as one number below zero
pub mod files; // files.rt: whether a table file is accepted, and how much it holds
pub mod terms; // terms.rt: the answers of the store's calls
pub mod texts; // texts.rt: the answers of both texts
