// Lists as loops go through them, over any element: definitions in specs/, laws in proofs/. There are no functions here.
#![tactic(auto)]
