// The marked cases C1 to C11, as one table with one statement about it: specs/Marked.antt and proofs/Cases.antt.
#![tactic(auto)]
