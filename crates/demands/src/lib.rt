// No code: the demands on the grader are stated in specs/ and proved in proofs/.
#![tactic(auto)]
