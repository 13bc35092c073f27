// The worked values that the scope marks P: a table in specs/, proved of the definitions in proofs/. There are no functions here.
#![tactic(auto)]
