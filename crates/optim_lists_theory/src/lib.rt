#![tactic(auto)]

// No code: the theorems of the record as lists stand in specs/ and proofs/.
