//! What is kept of an information set.

use lc_matrix::Matrix;
use std::marker::Model;

// An information set, its fresh columns, and the generator matrix that is the identity on it.
#[derive(Drop)]
pub(crate) struct KeptSet {
    pub(crate) basis: Vec<usize>,
    pub(crate) fresh: Vec<usize>,
    pub(crate) generator: Matrix,
}

impl Model for KeptSet {
    ghost use Rattle.lc_infoset.specs.Kept.{SetState};

    ghost Value = { SetState };

    ghost view = { λ s. record { set = record { basis = s.basis.items; fresh = s.fresh.items }; generator = s.generator } };
}
