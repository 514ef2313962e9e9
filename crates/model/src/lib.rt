// Definitions and laws only: the crossbar's slot and the PIFO switch of the scope, in specs/ and proofs/.
#![tactic(auto)]
