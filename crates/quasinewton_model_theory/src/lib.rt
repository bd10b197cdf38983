#![tactic(auto)]

// No code: the models over lists as the Rust has them, and that the code's are these.
