// Definitions and laws only: tests over lists, in specs/ and proofs/.
#![tactic(auto)]
