#![tactic(auto)]

// Polynomials over a field, as lists of coefficients.
