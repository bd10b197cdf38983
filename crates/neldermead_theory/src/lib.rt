#![tactic(auto)]

// The theory of the simplex fit stands in specs/ and proofs/: no code.
