#![tactic(auto)]

// Least costs, ranks, edges and the chosen tree: definitions in specs/, theorems in proofs/. No code.
