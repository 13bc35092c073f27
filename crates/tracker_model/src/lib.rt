// Module 7 of the scope: what a tracker does over the samples of a block, in specs/, and laws about it. There are no functions here.
#![tactic(auto)]
