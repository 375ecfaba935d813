// Literals of atoms by number.
ghost use Rattle.std.specs.Prelude.{◌≡◌};
ghost use Rattle.program_meaning.specs.Canonical.{literal_at};
ghost use Rattle.program_meaning.specs.Said.{literals_in};

use ground_model::BodyLit;

/// The literal of an atom with this number; one of an atom that has none, because it is not possible, is left
/// out.
pub fn number_literal(number: Option<u32>, sign: bool) -> Option<BodyLit>
    ensures { literals_in result ≡ literal_at number sign }
{
    match number {
        Some(atom) => Some(BodyLit::Atom(atom, sign)),
        None => None,
    }
}
