// Document 01's plans with known orders, cases a to j, and files of plans. There is no code here: the cases are definitions
// (specs/), and what is known of them is computed from the rules and the reader (proofs/). They are a crate of their own,
// since that takes longer than the proofs of the rules.
#![tactic(auto)]
