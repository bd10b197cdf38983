#![tactic(auto)]

// No code: 01's bench values marked P, a table in specs/ and its proof.
