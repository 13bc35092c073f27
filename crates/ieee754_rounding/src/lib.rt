// Laws of the float operations at any format: how far a rounded result can be from the exact one, signs, and exchange of terms.
// They are in proofs/. There are no functions here.
#![tactic(auto)]
