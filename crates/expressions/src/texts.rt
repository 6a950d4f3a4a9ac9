// A text made from bytes and read as bytes.
ghost use Rattle.std.specs.Prelude.{◌≡◌, ◌<◌, ◌≤◌, length, MatchOption};
ghost use Rattle.expressions.specs.Texts.{text_of};

use crate::text::Text;
use lines::Short;

impl Text {
    // A text of these bytes, if they are at most 48; an Option, as `Short::new` answers it.
    pub fn new(text: &[u8]) -> Option<Text>
        ensures { MatchOption result (48 < length text.now) (λ t. text_of t ≡ text.now) }
    {
        let bytes = Short::new(text)?;
        Some(Text { bytes })
    }

    // The bytes of the text.
    pub fn bytes(&self) -> &[u8]
        ensures text { result.now ≡ text_of self.now }
        ensures short { length result.now ≤ 48 }
    {
        self.bytes.as_slice()
    }

    // A text of these bytes, which are few enough.
    pub(crate) fn of(text: &[u8]) -> Text
        requires { length text.now ≤ 48 }
        ensures { text_of result ≡ text.now }
    {
        Text::new(text).unwrap()
    }
}
