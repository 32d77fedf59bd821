#![tactic(auto)]

// Hermitian rings, their words and the arrays that they are, and the checks of the calls on rings: definitions and lemmas, no functions.
