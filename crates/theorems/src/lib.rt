#![tactic(auto)]

// The five theorems that a reader comes for, specs/Main.antt, and their proof from the promise pages. No code.
