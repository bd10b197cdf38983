#![tactic(auto)]

// The theory of the engine stands in specs/ and proofs/: no code.
