// The theorems about runs with rounding (02, 2.2). There is no code here: what is said of such runs, of a plan's and of the code's, is said
// in specs/ and proved in proofs/.
#![tactic(auto)]
