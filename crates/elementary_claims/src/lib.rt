// What is promised of the elementary functions beyond their own contracts: that the turn, by which angles are reduced, is 2π. The statement is in specs/, over
// the definition that the contracts of the running code cite, and the proof in proofs/. There are no functions here.
#![tactic(auto)]
