// The theorems about whole runs. There is no code here: what is demanded of runs, of a plan's and of the code's, is said in
// specs/ and proved in proofs/. They are a crate of their own, since no function's proof needs them.
#![tactic(auto)]
