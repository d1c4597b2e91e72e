// What the lent memories mean: the state of the abstract machine that they hold, when they are sound, and
// what it is to serve a request. Definitions in specs/ and their laws in proofs/. There is no code here.

#![tactic(auto)]
