// Product and division of polynomials in their slots.
#![tactic(auto)]

pub mod slots;
