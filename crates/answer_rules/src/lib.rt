#![tactic(auto)]

// What best and variants answer for a table file, a root and a lent store: definitions in specs/, theorems in proofs/.
// No code; the public calls are in the crate `extract`.
