// Runs of any machine over lists of calls: what they lead to and answer, in specs/, and what holds of all of them, in proofs/. There are no
// functions here.
#![tactic(auto)]
