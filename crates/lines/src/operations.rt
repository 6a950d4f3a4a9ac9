// Operations that have a meaning of their own.
ghost use Rattle.std.specs.Prelude.{◌≡◌};
ghost use Rattle.lines.specs.Kinds.{kind_of};

use crate::kinds::Kind;

// The kind of a statement with this operation.
pub fn kind_of(operation: &[u8]) -> Kind
    ensures { result ≡ kind_of operation.now }
{
    match operation {
        b"LCLA" | b"LCLB" | b"LCLC" | b"GBLA" | b"GBLB" | b"GBLC" => Kind::Declaration,
        b"SETA" | b"SETB" | b"SETC" => Kind::Assignment,
        b"AIF" => Kind::Branch,
        b"AGO" => Kind::Jump,
        b"ANOP" => Kind::Label,
        b"MEXIT" => Kind::Exit,
        b"MEND" => Kind::Mend,
        b"MNOTE" => Kind::Note,
        b"MACRO" => Kind::Opening,
        b"END" | b"BEND" => Kind::Closing,
        _ => Kind::Model,
    }
}
