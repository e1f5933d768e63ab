// Arithmetic on written elements and slots, in one store of words with places: what a function leaves is said for whatever elements stood in the words.
// Sums and differences are in `sum`; `walk` has the sums of products of residues that a product of elements is made of, `lines` those of level 1.
#![tactic(auto)]

pub mod lines;
pub mod places;
pub mod rows;
pub mod sum;
pub mod walk;
