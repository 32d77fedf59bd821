#![tactic(auto)]

// Codes, their arrays and limits, lost columns, and the checks of the calls on arrays: definitions and lemmas, no functions.
