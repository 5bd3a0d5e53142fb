// Dealing rows to states: the definitions are in specs/, the theorem and its proof in proofs/.
// There is no code here.

#![tactic(auto)]
