#![tactic(auto)]

// The least solutions of a growing system of linear conditions on vectors of polynomials.
