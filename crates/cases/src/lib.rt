#![tactic(auto)]

// The worked cases of document 01 as one table, specs/Cases.antt, and its proof. No code.
