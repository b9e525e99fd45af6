// No code: what is shown of the library, laid before the inspector; the theorems are in proofs/.
#![tactic(auto)]
