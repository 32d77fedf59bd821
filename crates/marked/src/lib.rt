#![tactic(auto)]

// The marked examples, P1 to P10: a list in specs/ under one claim, which proofs/ proves.
