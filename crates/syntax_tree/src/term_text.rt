// The printed text of terms.
ghost use Rattle.std.specs.Prelude.{◌≡◌, ℕ, List, ◌==◌, ◌++◌, [], nat_le, map, length, codes, if◌then◌else◌, OnOk};
ghost use Rattle.symbols.specs.Text.{closing};
ghost use Rattle.syntax_tree.specs.Printed as text;
ghost use Rattle.syntax_tree.specs.declared.term_text.Joining.TheVariants.{Operand};

use crate::rule::Name;
use crate::term::{Op, Part, Term};
use crate::writing::{mark_before, write_quoted, write_signed};
use symbols::{Listed, Memory};

/// How the text of a term is joined, each looser than the one before. In a place where only something tighter may
/// stand, the text stands in brackets.
#[derive(Clone, Copy, Debug, PartialEq, Eq)]
pub enum Joining {
    Operand,
    Product,
    Sum,
    Interval,
}

fn looseness(joining: Joining) -> u8
    ensures { result ≡ text.looseness joining }
{
    match joining {
        Joining::Operand => 0,
        Joining::Product => 1,
        Joining::Sum => 2,
        Joining::Interval => 3,
    }
}

// How the text of a term is joined.
fn joining_of(term: &Term) -> Joining
    ensures { (names : List Name) → result ≡ (text.written names term.now).joining }
{
    match term {
        Term::Number(n) => number_joining(*n),
        Term::Sum(_) => Joining::Sum,
        Term::Product(_) => Joining::Product,
        Term::Interval(_, _) => Joining::Interval,
        _ => Joining::Operand,
    }
}

fn number_joining(n: i32) -> Joining
    ensures { result ≡ (text.number_written n).joining }
{
    if n == i32::MIN {
        Joining::Sum
    } else {
        Joining::Operand
    }
}

// Appends the text of a number.
fn write_number(n: i32, out: &mut Listed<u8>) -> Result<(), Memory>
    ensures { OnOk result (out.new ≡ out.old ++ (text.number_written n).text) }
{
    if n == i32::MIN {
        out.append(b"-2147483647-1")
    } else {
        write_signed(n, out)
    }
}

// The bytes of a variable.
fn variable_text(names: &[Name], number: u32) -> &[u8]
    ensures { result.now ≡ text.variable_text names.now number }
{
    if number == 0 {
        return b"_";
    }
    match names.get(number as usize - 1) {
        Some(name) => name.text.items(),
        None => b"_",
    }
}

fn op_text(op: Op) -> &'static [u8]
    ensures { result.now ≡ text.op_text op }
{
    match op {
        Op::Plus => b"+",
        Op::Minus => b"-",
        Op::Times => b"*",
        Op::Divide => b"/",
        Op::Remainder => b"\\",
    }
}

// What ends the arguments of a name.
fn ending(name: &[u8], places: usize) -> &'static [u8]
    ensures { result.now ≡ closing name.now places }
{
    if name.is_empty() && places == 1 {
        b",)"
    } else {
        b")"
    }
}

// Appends the text of a term.
#[cycle(write_term)]
pub(crate) fn write_term(term: &Term, names: &[Name], out: &mut Listed<u8>) -> Result<(), Memory>
    ensures { OnOk result (out.new ≡ out.old ++ text.term_text names.now term.now) }
{
    match term {
        Term::Number(n) => write_number(*n, out),
        Term::Text(bytes) => write_quoted(bytes.items(), out),
        Term::Variable(number) => out.append(variable_text(names, *number)),
        Term::Anonymous => out.append(b"_"),
        Term::Function(name, args) => write_function(name.items(), args.as_slice(), names, out),
        Term::Tuple(args) => write_nested(b"", args.as_slice(), names, out),
        Term::Sum(parts) => write_parts(Joining::Product, parts.as_slice(), names, out),
        Term::Product(parts) => write_parts(Joining::Operand, parts.as_slice(), names, out),
        Term::Minus(inner) => write_minus(inner.get(), names, out),
        Term::Interval(left, right) => {
            write_within(Joining::Sum, left.get(), names, out)?;
            out.append(b"..")?;
            write_within(Joining::Sum, right.get(), names, out)
        }
    }
}

// Appends the text of a term behind a sign.
#[cycle(write_term)]
fn write_minus(inner: &Term, names: &[Name], out: &mut Listed<u8>) -> Result<(), Memory>
    ensures { OnOk result (out.new ≡ out.old ++ (codes "-" ++ text.within Operand (text.written names.now inner.now))) }
{
    out.append(b"-")?;
    write_within(Joining::Operand, inner, names, out)
}

// Appends the text of a term where nothing looser than the limit may stand.
#[cycle(write_term)]
fn write_within(
    limit: Joining,
    term: &Term,
    names: &[Name],
    out: &mut Listed<u8>,
) -> Result<(), Memory>
    ensures { OnOk result (out.new ≡ out.old ++ text.within limit (text.written names.now term.now)) }
{
    if looseness(joining_of(term)) <= looseness(limit) {
        return write_term(term, names, out);
    }
    out.append(b"(")?;
    write_term(term, names, out)?;
    out.append(b")")
}

// Appends the text of a name with arguments, which is the name alone where there are none.
#[cycle(write_term)]
fn write_function(
    name: &[u8],
    args: &[Term],
    names: &[Name],
    out: &mut Listed<u8>,
) -> Result<(), Memory>
    ensures { OnOk result (out.new ≡ out.old ++ text.function_text name.now (text.texts (map (text.written names.now) args.now))) }
{
    if args.is_empty() {
        return out.append(name);
    }
    write_nested(name, args, names, out)
}

// Appends the text of a name with arguments in parentheses.
#[cycle(write_term)]
fn write_nested(
    name: &[u8],
    args: &[Term],
    names: &[Name],
    out: &mut Listed<u8>,
) -> Result<(), Memory>
    ensures { OnOk result (out.new ≡ out.old ++ text.nested_text name.now (text.texts (map (text.written names.now) args.now))) }
{
    out.append(name)?;
    out.append(b"(")?;
    write_arguments(args, names, out)?;
    out.append(ending(name, args.len()))
}

// Appends the texts of arguments.
#[cycle(write_term)]
fn write_arguments(args: &[Term], names: &[Name], out: &mut Listed<u8>) -> Result<(), Memory>
    ensures { OnOk result (out.new ≡ out.old ++ text.parted (codes ",") (text.texts (map (text.written names.now) args.now))) }
{
    for (index, arg) in args.iter().enumerate() {
        out.append(mark_before(index, b","))?;
        write_term(arg, names, out)?;
    }
    Ok(())
}

// Appends the text of a sum or a product, whose parts are not looser than the limit.
#[cycle(write_term)]
fn write_parts(
    limit: Joining,
    parts: &[Part],
    names: &[Name],
    out: &mut Listed<u8>,
) -> Result<(), Memory>
    ensures { OnOk result (out.new ≡ out.old ++ text.parts_text limit (map (text.part_written names.now) parts.now)) }
{
    for (index, part) in parts.iter().enumerate() {
        out.append(mark_before(index, op_text(part.op)))?;
        write_within(limit, &part.term, names, out)?;
    }
    Ok(())
}

// Appends the texts of terms, each behind a comma.
pub(crate) fn write_behind_commas(
    terms: &[Term],
    names: &[Name],
    out: &mut Listed<u8>,
) -> Result<(), Memory>
    ensures { OnOk result (out.new ≡ out.old ++ text.each_behind (codes ",") (map (text.term_text names.now) terms.now)) }
{
    for term in terms {
        out.append(b",")?;
        write_term(term, names, out)?;
    }
    Ok(())
}
