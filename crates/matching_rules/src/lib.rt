// Clause 9 of ISO/IEC 19757-2 as rules, and the theory of matching. There is no function here: the definitions are in
// specs/, the theorems in proofs/.
#![tactic(auto)]
