#![tactic(auto)]

// No code: the theorems of the simplex fit and the gradient fits as one stand in specs/ and proofs/.
