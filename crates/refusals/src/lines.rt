// The lines of rules that may not be grounded.
ghost use Rattle.std.specs.Prelude.{◌≡◌, ◌++◌, [], ℕ, Some, true, length, map, codes, slice_get, IfOk};
ghost use Rattle.syntax_tree.specs.declared.term.Term.{Term as WrittenTerm};
ghost use Rattle.syntax_tree.specs.declared.statement.Program.{Program};
ghost use Rattle.program_meaning.specs.Read.{rule_read};
ghost use Rattle.program_meaning.specs.Predicates.{Predicate, predicate};
ghost use Rattle.safety_meaning.specs.Failures.{condition_atoms};
ghost use Rattle.safety.specs.Judgement.{said};
ghost use Rattle.load_meaning.specs.Lines as spec;
ghost use Rattle.load_meaning.specs.Lines.{IsFailureLine, in_conditions};
ghost use Rattle.refusals.specs.Sites.{AreRewritten, IsFailure};
ghost use Rattle.refusals.specs.inner.Atoms.{atom_in};
ghost use Rattle.refusals.specs.inner.Places.{atom_place_in, condition_place_in, variable_place_in};
ghost use Rattle.refusals.specs.inner.Rows.{IsLineOf};

use crate::atoms::{SeenAtom, condition_flags, seen_atoms};
use crate::flags::before_true;
use crate::places::{atom_place, place_at, variable_place};
use crate::site::{Site, rule_site};
use inputs::line_at;
use itoa::Buffer;
use lexer::line_column;
use rewriting::RewrittenProgram;
use safety::{Failure, FirstFailure};
use std::alloc::Global;
use symbols::{Listed, Memory};
use syntax_tree::{Rule, Term};

/// The line of a refusal at a byte of a text.
pub(crate) fn line_in(
    alloc: Global,
    name: &str,
    text: &[u8],
    at: usize,
    why: &[u8],
) -> Result<Listed<u8>, Memory>
    ensures { IfOk result (λ printed. printed ≡ spec.line_in name.now text.now at why.now) }
{
    let (line, column) = line_column(text, at.min(text.len()));
    line_at(alloc, name, line, column, why)
}

/// A variable as it is written.
pub(crate) fn name_of<'a>(rule: &'a Rule, number: u32) -> &'a [u8]
    ensures { result.now ≡ spec.name_of rule.now number }
{
    let place = (number as usize).saturating_sub(1);
    match rule.names.items().get(place) {
        Some(name) => name.text.items(),
        None => "_".as_bytes(),
    }
}

fn unsafe_text(alloc: Global, rule: &Rule, number: u32) -> Result<Listed<u8>, Memory>
    ensures { IfOk result (λ why. why ≡ codes "unsafe variable " ++ spec.name_of rule.now number) }
{
    let mut why = Listed::from_slice(alloc, b"unsafe variable ")?;
    why.append(name_of(rule, number))?;
    Ok(why)
}

// The line of an unsafe variable, by its place in the rule's order; an empty one where there is none.
fn unsafe_line(alloc: Global, site: &Site<'_>, place: usize) -> Result<Listed<u8>, Memory>
    ensures { IfOk result (λ printed. (n : ℕ) → slice_get site.now.order.now place ≡ Some n → printed ≡ spec.line_in site.now.name.now site.now.text.now (variable_place_in site.now.rule.now site.now.sights.now n) (codes "unsafe variable " ++ spec.name_of site.now.rule.now n)) }
{
    match site.order.get(place) {
        Some(number) => {
            let at = variable_place(alloc, site.rule, site.sights, *number)?;
            let why = unsafe_text(alloc, site.rule, *number)?;
            line_in(alloc, site.name, site.text, at, why.items())
        }
        None => Ok(Listed::new(alloc)),
    }
}

fn named_text(alloc: Global, name: &[u8], count: usize) -> Result<Listed<u8>, Memory>
    ensures { IfOk result (λ why. why ≡ spec.no_domain_text (record { name = name.now; count = count })) }
{
    let mut why = Listed::from_slice(alloc, b"predicate ")?;
    why.append(name)?;
    why.push(b'/')?;
    let mut buffer = Buffer::new();
    why.append(buffer.format(count).as_bytes())?;
    why.append(b" is not a domain predicate")?;
    Ok(why)
}

// What is said of an atom's predicate, and nothing where it has none.
fn no_domain_text(alloc: Global, atom: &Term) -> Result<Listed<u8>, Memory>
    ensures { IfOk result (λ why. (p : Predicate) → predicate atom.now ≡ Some p → why ≡ spec.no_domain_text p) }
{
    match atom {
        Term::Function(name, args) => named_text(alloc, name.items(), args.len()),
        _ => Ok(Listed::new(alloc)),
    }
}

// The line of an atom, by its place among those in the conditions of theory atoms; an empty one where there is none.
fn no_domain_line(alloc: Global, site: &Site<'_>, place: usize) -> Result<Listed<u8>, Memory>
    ensures { IfOk result (λ printed. (term : WrittenTerm) (p : Predicate) → slice_get (condition_atoms (rule_read site.now.rule.now [])) place ≡ Some term → predicate term ≡ Some p → printed ≡ spec.line_in site.now.name.now site.now.text.now (condition_place_in site.now.rule.now site.now.sights.now (in_conditions (rule_read site.now.rule.now [])) place) (spec.no_domain_text p)) }
{
    let seen = seen_atoms(alloc, site.rule)?;
    let flags = condition_flags(alloc, seen.items())?;
    let number = before_true(place, flags.items());
    found_line(alloc, site, seen.items(), number)
}

// The line of the atom with this number among these; an empty one where there is none.
fn found_line(
    alloc: Global,
    site: &Site<'_>,
    seen: &[SeenAtom<'_>],
    number: usize,
) -> Result<Listed<u8>, Memory>
    ensures { IfOk result (λ printed. (term : WrittenTerm) (p : Predicate) → slice_get (map atom_in seen.now) number ≡ Some (term, true) → predicate term ≡ Some p → printed ≡ spec.line_in site.now.name.now site.now.text.now (atom_place_in site.now.rule.now site.now.sights.now number) (spec.no_domain_text p)) }
{
    if number >= seen.len() {
        return Ok(Listed::new(alloc));
    }
    atom_line(alloc, site, number, seen[number].atom)
}

// The line of the atom with this number among all of the rule.
fn atom_line(
    alloc: Global,
    site: &Site<'_>,
    number: usize,
    atom: &Term,
) -> Result<Listed<u8>, Memory>
    ensures { IfOk result (λ printed. (p : Predicate) → predicate atom.now ≡ Some p → printed ≡ spec.line_in site.now.name.now site.now.text.now (atom_place_in site.now.rule.now site.now.sights.now number) (spec.no_domain_text p)) }
{
    let at = atom_place(alloc, site.rule, site.sights, number)?;
    let why = no_domain_text(alloc, atom)?;
    line_in(alloc, site.name, site.text, at, why.items())
}

fn recursive_line(alloc: Global, site: &Site<'_>) -> Result<Listed<u8>, Memory>
    ensures { IfOk result (λ printed. printed ≡ spec.line_in site.now.name.now site.now.text.now (spec.place_at site.now.rule.now 0) (codes "recursive rule with a variable")) }
{
    line_in(
        alloc,
        site.name,
        site.text,
        place_at(site.rule, 0),
        b"recursive rule with a variable",
    )
}

fn site_line(alloc: Global, site: &Site<'_>, failure: Failure) -> Result<Listed<u8>, Memory>
    ensures { IfOk result (IsLineOf site.now failure) }
{
    match failure {
        Failure::UnsafeVariable(place) => unsafe_line(alloc, site, place),
        Failure::NoDomainAtom(place) => no_domain_line(alloc, site, place),
        Failure::RecursiveRule => recursive_line(alloc, site),
    }
}

/// The line of the first rule of rewritten texts that is not fine.
pub fn failure_line(
    alloc: Global,
    names: &[&str],
    texts: &[Listed<u8>],
    program: &RewrittenProgram,
    found: FirstFailure,
) -> Result<Listed<u8>, Memory>
    requires named { length texts.now ≡ length names.now }
    requires first { IsFailure texts.now program.now found }
    ensures { IfOk result (λ printed. (old : Program) → AreRewritten texts.now program.now old → IsFailureLine (map (λ name. name.now) names.now) texts.now old found.rule (said found.failure) printed) }
{
    match rule_site(alloc, names, texts, program, found.rule) {
        Ok(site) => site_line(alloc, &site, found.failure),
        Err(_) => Err(Memory),
    }
}
