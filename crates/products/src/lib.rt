// Products and remainders of elements at any level of a tower, in one store by a stack discipline.
//
// Stays: degrees and sizes go as two arrays by value through every call, since document 01 has them so. The modulus, the tower's words, the store, the answer's
// place and `top` are parameters too: each level passes others of them on, and a struct of them would be taken apart and made again at each call.
// Stays: whether a sum is subtracted and whether old content is kept are two bools, worked out at run time level by level and place by place (`loses`, `keeps`),
// and ProductDone tells by them what is left; a closure or an enum of four cases would be taken apart at each level.
#![tactic(auto)]

pub mod lowest;
pub mod product;
pub mod unit;

use arithmetic::places::Source;

// The operands of a product: n pairs of elements of level i, upwards from where x begins and downwards to where y does.
#[derive(Clone, Copy)]
pub struct Operands<'a> {
    pub i: usize,
    pub x: Source<'a>,
    pub y: Source<'a>,
    pub n: usize,
}
