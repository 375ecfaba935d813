// Fields of a line, written each behind its blank.
ghost use Rattle.std.specs.Prelude.{◌≡◌, ◌++◌, ◌∷◌, [], map, codes, decimal, OnOk};
ghost use Rattle.std.specs.Fmt.{signed_decimal};
ghost use Rattle.derivation.specs.Fields as spelled;
ghost use Rattle.derivation.specs.Fields.{behind};

use itoa::Buffer;
use literals::Lit;
use symbols::{Listed, Memory};

// Appends a number.
pub(crate) fn write_digits(number: u64, out: &mut Listed<u8>) -> Result<(), Memory>
    ensures { OnOk result (out.new ≡ out.old ++ decimal number) }
{
    let mut buffer = Buffer::new();
    out.append(buffer.format(number).as_bytes())
}

// Appends an integer.
fn write_integer(number: i64, out: &mut Listed<u8>) -> Result<(), Memory>
    ensures { OnOk result (out.new ≡ out.old ++ signed_decimal number) }
{
    let mut buffer = Buffer::new();
    out.append(buffer.format(number).as_bytes())
}

// Appends a word.
pub(crate) fn write_word(word: &[u8], out: &mut Listed<u8>) -> Result<(), Memory>
    ensures { OnOk result (out.new ≡ out.old ++ behind (word.now ∷ [])) }
{
    out.push(b' ')?;
    out.append(word)
}

// Appends a number behind a blank.
pub(crate) fn write_number(number: u64, out: &mut Listed<u8>) -> Result<(), Memory>
    ensures { OnOk result (out.new ≡ out.old ++ behind (decimal number ∷ [])) }
{
    out.push(b' ')?;
    write_digits(number, out)
}

// Appends an integer behind a blank.
pub(crate) fn write_signed(number: i64, out: &mut Listed<u8>) -> Result<(), Memory>
    ensures { OnOk result (out.new ≡ out.old ++ behind (signed_decimal number ∷ [])) }
{
    out.push(b' ')?;
    write_integer(number, out)
}

// Appends a cost behind a blank.
pub(crate) fn write_cost(number: i128, out: &mut Listed<u8>) -> Result<(), Memory>
    ensures { OnOk result (out.new ≡ out.old ++ behind (signed_decimal number ∷ [])) }
{
    let mut buffer = Buffer::new();
    out.push(b' ')?;
    out.append(buffer.format(number).as_bytes())
}

// What stands before the letter of an atom, a body or a constraint.
fn sign_text(sign: bool) -> &'static [u8]
    ensures { result.now ≡ spelled.sign_text sign }
{
    if sign { b"" } else { b"~" }
}

// Appends a sign, a letter and a number.
fn write_signed_letter(
    sign: bool,
    mark: &[u8],
    number: u32,
    out: &mut Listed<u8>,
) -> Result<(), Memory>
    ensures { OnOk result (out.new ≡ out.old ++ (spelled.sign_text sign ++ (mark.now ++ decimal number))) }
{
    out.append(sign_text(sign))?;
    out.append(mark)?;
    write_digits(u64::from(number), out)
}

// Appends a variable, what stands between, and a number.
fn write_bound(
    variable: u32,
    between: &[u8],
    number: i32,
    out: &mut Listed<u8>,
) -> Result<(), Memory>
    ensures { OnOk result (out.new ≡ out.old ++ (codes "v" ++ (decimal variable ++ (between.now ++ signed_decimal number)))) }
{
    out.append(b"v")?;
    write_digits(u64::from(variable), out)?;
    out.append(between)?;
    write_integer(i64::from(number), out)
}

// Appends a literal.
fn write_plain_lit(lit: Lit, out: &mut Listed<u8>) -> Result<(), Memory>
    ensures { OnOk result (out.new ≡ out.old ++ spelled.lit_field lit) }
{
    match lit {
        Lit::Atom(n, sign) => write_signed_letter(sign, b"a", n, out),
        Lit::Body(n, sign) => write_signed_letter(sign, b"b", n, out),
        Lit::Constraint(n, sign) => write_signed_letter(sign, b"c", n, out),
        Lit::AtMost(x, k) => write_bound(x, b"<=", k, out),
        Lit::AtLeast(x, k) => write_bound(x, b">=", k, out),
    }
}

// Appends a literal behind a blank.
fn write_lit(lit: Lit, out: &mut Listed<u8>) -> Result<(), Memory>
    ensures { OnOk result (out.new ≡ out.old ++ behind (spelled.lit_field lit ∷ [])) }
{
    out.push(b' ')?;
    write_plain_lit(lit, out)
}

// Appends an atom of an answer behind a blank.
fn write_atom(atom: u32, out: &mut Listed<u8>) -> Result<(), Memory>
    ensures { OnOk result (out.new ≡ out.old ++ behind (spelled.atom_field atom ∷ [])) }
{
    out.append(b" a")?;
    write_digits(u64::from(atom), out)
}

// Appends a variable with its value behind a blank.
fn write_value(variable: u32, value: i32, out: &mut Listed<u8>) -> Result<(), Memory>
    ensures { OnOk result (out.new ≡ out.old ++ behind (spelled.value_field (variable, value) ∷ [])) }
{
    out.push(b' ')?;
    write_bound(variable, b"=", value, out)
}

// Appends literals, each behind a blank.
pub(crate) fn write_lits(lits: &[Lit], out: &mut Listed<u8>) -> Result<(), Memory>
    ensures { OnOk result (out.new ≡ out.old ++ behind (spelled.lits_fields lits.now)) }
{
    out.append(b" =")?;
    for lit in lits {
        write_lit(*lit, out)?;
    }
    Ok(())
}

// Appends pivots, each with the id of a nogood behind it.
pub(crate) fn write_pivots(pivots: &[(Lit, u64)], out: &mut Listed<u8>) -> Result<(), Memory>
    ensures { OnOk result (out.new ≡ out.old ++ behind (spelled.pivot_fields pivots.now)) }
{
    for (lit, id) in pivots {
        write_lit(*lit, out)?;
        write_number(*id, out)?;
    }
    Ok(())
}

// Appends numbers, each behind a blank.
pub(crate) fn write_numbers(numbers: &[u32], out: &mut Listed<u8>) -> Result<(), Memory>
    ensures { OnOk result (out.new ≡ out.old ++ behind (map decimal numbers.now)) }
{
    for number in numbers {
        write_number(u64::from(*number), out)?;
    }
    Ok(())
}

// Appends the atoms of an answer.
fn write_atoms(atoms: &[u32], out: &mut Listed<u8>) -> Result<(), Memory>
    ensures { OnOk result (out.new ≡ out.old ++ behind (map spelled.atom_field atoms.now)) }
{
    for atom in atoms {
        write_atom(*atom, out)?;
    }
    Ok(())
}

// Appends the values of an answer.
fn write_values(values: &[(u32, i32)], out: &mut Listed<u8>) -> Result<(), Memory>
    ensures { OnOk result (out.new ≡ out.old ++ behind (map spelled.value_field values.now)) }
{
    for (variable, value) in values {
        write_value(*variable, *value, out)?;
    }
    Ok(())
}

// Appends an answer.
#[tactic(auto, using(crate::proofs::WriteLaws::joined))]
pub(crate) fn write_answer(
    atoms: &[u32],
    values: &[(u32, i32)],
    out: &mut Listed<u8>,
) -> Result<(), Memory>
    ensures { OnOk result (out.new ≡ out.old ++ behind (spelled.answer_fields atoms.now values.now)) }
{
    write_atoms(atoms, out)?;
    write_values(values, out)
}
