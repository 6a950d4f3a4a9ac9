// The table of where the definitions of a text begin.
ghost use Rattle.std.specs.Prelude.{◌≡◌, None, slice_index};
ghost use Rattle.lines.specs.Fields.{operation_of};
ghost use Rattle.lines.specs.Names.{padded};
ghost use Rattle.libraries.specs.Checks.{check_of};

use crate::entry::Entry;
use crate::places::{first_line, statements_in};
use crate::text::TextLibrary;
use arrayvec::ArrayVec;
use lines::{operation, padded_name, split_line};

// The first byte of the name in a prototype.
pub(crate) fn initial_of(prototype: &[u8]) -> u8
    ensures { result ≡ slice_index (padded (operation_of prototype.now)) 0 }
{
    padded_name(operation(prototype))[0]
}

// The library over a text in which the check finds no fault.
pub(crate) fn indexed(text: &[u8]) -> TextLibrary<'_>
    requires { check_of text.now ≡ None }
    ensures { result.text.now ≡ text.now }
{
    let mut entries = ArrayVec::new();
    let mut rest = text;
    while let Some((_, body)) = split_line(rest) {
        let (statements, behind) = statements_in(body);
        entries.push(Entry {
            lines: rest,
            // Narrowed by `as`, which is proved: a definition of a lawful text has at most 255.
            statements: statements as u16,
            initial: initial_of(first_line(body)),
        });
        rest = behind;
    }
    TextLibrary { text, entries }
}
