// What a memory set is: a list of regions in ascending order, and the pages that they map. Definitions in
// specs/ and their laws in proofs/. There is no code here, and nothing is said of memory.

#![tactic(auto)]
