// Definitions and laws only: the matching of scope 3.6, rule 4, in specs/ and proofs/.
#![tactic(auto)]
