#![tactic(auto)]

// The theory of the lines that are read stands in specs/ and proofs/: no code.
