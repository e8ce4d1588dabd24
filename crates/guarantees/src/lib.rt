// What is guaranteed, on one page: specs/Guarantees.antt. There is no code here: the page cites what the crates prove.
#![tactic(auto)]
