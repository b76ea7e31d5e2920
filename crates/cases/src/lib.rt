// The cases that document 01 marks P, and walks of file W from marks: see specs/ for the files and proofs/ for the statements. There is no
// code here.
#![tactic(auto)]
