// Document 01's figures P1 to P13: the list is in specs/, and proofs/ shows that all of it holds.
// There is no code here.

#![tactic(auto)]
