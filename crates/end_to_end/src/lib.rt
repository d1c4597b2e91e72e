// From the bytes of the configuration and the bytes of any calls to who can reach which page. There is no code
// here: proofs/EndToEnd.antt is the one file to read.

#![tactic(auto)]
