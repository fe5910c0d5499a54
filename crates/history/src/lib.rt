// The law of the line: what must be true of the calls on a house and their answers. There is no code here, only
// definitions (specs/) and what is proved of them (proofs/).
#![tactic(auto)]
