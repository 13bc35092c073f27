// Demands 1 and 3 of the five exported functions: the statements in specs/, over the definitions that their contracts cite, and the proofs in
// proofs/. There are no functions here.
#![tactic(auto)]
