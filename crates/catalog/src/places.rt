// Lines and definitions found by walking over a text.
ghost use Rattle.std.specs.Prelude.{◌≡◌, ◌≤◌, length};
ghost use Rattle.lines.specs.Texts.{first_line, lines_of};
ghost use Rattle.catalog.specs.Entries.{after, runs};

use libraries::ends_definition;
use lines::split_line;

// The first line of a text, nothing where there is none.
pub(crate) fn first_line(text: &[u8]) -> &[u8]
    ensures { result.now ≡ first_line text.now }
{
    split_line(text).map_or(&[], |(line, _)| line)
}

// How many lines there are up to and with the first MEND, and what follows them.
pub(crate) fn statements_in(text: &[u8]) -> (usize, &[u8])
    ensures value { result.0 ≡ runs (lines_of text.now) }
    ensures bound { result.0 ≤ length text.now }
    ensures rest { result.1.now ≡ after result.0 text.now }
{
    // Cut by hand and counted, because what is left of the text is asked for too.
    let mut rest = text;
    let mut count = 0;
    while let Some((line, behind)) = split_line(rest) {
        rest = behind;
        count += 1;
        if ends_definition(line) {
            return (count, rest);
        }
    }
    (count, rest)
}
