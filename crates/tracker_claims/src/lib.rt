// What is promised of a tracker beyond its steps: the range of its phase. The statements are in specs/, over the definitions that the contracts of the running
// code cite, and the proofs in proofs/. There are no functions here.
#![tactic(auto)]
