// What stands at the places of a vector: the definitions are in specs/, their laws in proofs/.
// There is no code here.

#![tactic(auto)]
