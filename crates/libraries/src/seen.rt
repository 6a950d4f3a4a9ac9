// The parameters of a prototype that were seen so far.
use crate::prototypes::PARAMETERS;
use crate::table::Names;
use std::marker::Model;

// A clause sees them as `Parameters` of specs/Prototypes.
#[derive(Clone, Copy)]
pub struct Seen {
    pub(crate) names: Names<PARAMETERS>,
    // a keyword parameter was seen
    pub(crate) late: bool,
}

impl Model for Seen {
    ghost use Rattle.libraries.specs.Prototypes.{Parameters, parameters};

    ghost Value = { Parameters };

    ghost view = { λ s. parameters s.late s.names };

    ghost inverse = { λ s. record { names = s.names; late = s.late } };
}
