// The cases of FORMAT, "Cases", held to the definitions. There is no function here: the table is in specs/, the
// theorem in proofs/.
#![tactic(auto)]
