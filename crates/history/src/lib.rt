// What holds of any history of adds and drops: definitions and laws alone, in specs/ and proofs/.
#![tactic(auto)]
