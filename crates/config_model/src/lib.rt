// What a configuration is, and when it is right: definitions in specs/ and their laws in proofs/. There
// is no code here, and nothing is said of bytes.

#![tactic(auto)]
