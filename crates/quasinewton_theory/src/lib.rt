#![tactic(auto)]

// No code: the gradient fits in direct style, and what is proved of them.
