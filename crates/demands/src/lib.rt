// Demands 2 and 3, the cases worked by hand and the change requests, over the definitions that the calls' contracts cite:
// statements in specs/Statements.antt and the files of requests, their proofs in proofs/. There is no code here.
#![tactic(auto)]
