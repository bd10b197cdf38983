#![tactic(auto)]

// No code: the definitions of the search as Nocedal and Wright have it, and what is proved of them.
