// How far a library text is read.
use crate::flaws::Phase;
use crate::table::Names;
use std::marker::Model;

// The most definitions of a library.
pub const DEFINITIONS: usize = 255;

// A clause sees how far the text is read, `Reading` of specs/Checks. The default has read nothing yet.
#[derive(Clone, Copy, Default)]
pub struct Reader {
    pub(crate) phase: Phase,
    // the macro names so far
    pub(crate) names: Names<DEFINITIONS>,
}

impl Model for Reader {
    ghost use Rattle.libraries.specs.Checks.{Reading, reading};

    ghost Value = { Reading };

    ghost view = { λ r. reading r.phase r.names };

    ghost inverse = { λ r. record { phase = r.phase; names = r.names } };
}
