// Definitions and one theorem: the starred shows of scope 9, in specs/ and proofs/.
#![tactic(auto)]
