// The rules of the engine, and what follows from them for every list of lines. There is no code here: specs/ says what
// a line does (Machine, Access, Step) and what holds over every list (the other files), and proofs/ has the proofs that
// the first imply the second.
#![tactic(auto)]
