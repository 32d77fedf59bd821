#![tactic(auto)]

// Functions on the curve of a ring, by their pole orders: theorems, no functions of the program.
