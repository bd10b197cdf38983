#![tactic(auto)]

// No code: what holds of a fit that C starts stands in specs/ and proofs/.
