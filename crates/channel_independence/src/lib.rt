// Demand 3: two channels answer alike after a release, whatever their earlier passes were.
// The statement is specs/Demand3.antt, over whole lists of calls, and proofs/Demand3.antt proves it. There are no functions here.
#![tactic(auto)]
