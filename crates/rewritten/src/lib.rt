// No code: what a file that was made from the list of another keeps of it.

#![tactic(auto)]
