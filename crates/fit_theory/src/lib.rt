#![tactic(auto)]

// That the program prints what 01 says of its lines stands in specs/ and proofs/: no code.
