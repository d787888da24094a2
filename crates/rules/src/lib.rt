// Document 01's rules, as definitions (specs/Lib.antt has their reading order), and the theorems about them (proofs/). There is no code here.
#![tactic(auto)]
