// What stays true of a house, whatever is called: proofs without code of their own.
#![tactic(auto)]
