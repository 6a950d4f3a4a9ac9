// Characters: what one begins, letters and digits.
ghost use Rattle.std.specs.Prelude.{◌≡◌};
ghost use Rattle.expressions.specs.Classes.{class_of, digit, letter, letter_or_digit};

// What a character begins. `class_of` of specs/Classes decides.
#[derive(Clone, Copy, Debug, PartialEq, Eq)]
pub enum Class {
    Variable,
    Sequence,
    Colon,
    Apostrophe,
    Plain,
}

// What the character begins: four have a meaning of their own.
pub fn class_of(character: char) -> Class
    ensures { result ≡ class_of character }
{
    match character {
        '%' => Class::Variable,
        '&' => Class::Sequence,
        ':' => Class::Colon,
        '\'' => Class::Apostrophe,
        _ => Class::Plain,
    }
}

// Is the byte a digit?
pub fn is_digit(byte: u8) -> bool
    ensures { result ≡ digit byte }
{
    byte.is_ascii_digit()
}

// Is the byte a letter, A to Z?
pub fn is_letter(byte: u8) -> bool
    ensures { result ≡ letter byte }
{
    byte.is_ascii_uppercase()
}

// Is the byte a letter or a digit?
pub fn is_letter_or_digit(byte: u8) -> bool
    ensures { result ≡ letter_or_digit byte }
{
    is_letter(byte) || is_digit(byte)
}
