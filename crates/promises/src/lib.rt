// No code: what is promised beyond each contract is stated and proved in proofs/.

#![tactic(auto)]
