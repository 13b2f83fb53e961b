//! Binary operators where they stand.

use cl_types::BinOp;
use clv_place::Place;

/// A binary operator, and where its token stands.
#[derive(Clone, Copy, PartialEq, Eq, Debug)]
pub struct Operator {
    pub op: BinOp,
    pub place: Place,
}
