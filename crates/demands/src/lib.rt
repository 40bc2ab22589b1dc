// No code: the three demands, of the public functions' own contracts, in proofs/Demands.antt.
#![tactic(auto)]
