// How words hold a tower: words as numbers, the degrees and sizes of a tower, document 01's limits, the form of elements, slots and towers, the work
// sizes, and the small tools of the store. Degrees and block sizes go by value, as [usize; 4] and [usize; 5]; only `store` writes words.
//
// Stays: degrees and sizes are no struct, as document 01 binds that they go by value as two arrays through every call.
#![tactic(auto)]

pub mod form;
pub mod limits;
pub mod sizes;
pub mod store;
pub mod words;
pub mod work;
