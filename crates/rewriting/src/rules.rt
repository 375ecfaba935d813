// Rules rewritten.
ghost use Rattle.std.specs.Prelude.{◌≡◌, ◌+◌, [], length, map, IfOk};
ghost use Rattle.rewriting.specs.Made.{each};
ghost use Rattle.rewriting.specs.Rewritten as spec;
ghost use Rattle.rewriting.specs.Order.{sights_of};
ghost use Rattle.rewriting.specs.inner.Becoming.{Becomes, AreParts};

use crate::literals::{atom, guard, literals, theory};
use crate::sight::Sight;
use crate::walk::Walk;
use std::alloc::Global;
use symbols::{Listed, Memory};
use syntax_tree::{Choice, ChoiceElement, Head, Literal, Name, Rule};

// A rule, rewritten, and what is seen in it.
#[derive(Drop)]
pub(crate) struct SeenRule {
    pub(crate) rule: Rule,
    pub(crate) sights: Listed<Sight>,
}

// A head and a body, rewritten, and what is seen in them.
#[derive(Drop)]
pub(crate) struct SeenParts {
    pub(crate) head: Head,
    pub(crate) body: Listed<Literal>,
    pub(crate) sights: Listed<Sight>,
}

// A rule, rewritten.
pub(crate) fn rewritten(alloc: Global, old: Rule) -> Result<SeenRule, Memory>
    ensures rule { IfOk result (λ new. new.rule ≡ spec.rewritten old) }
    ensures sights { IfOk result (λ new. new.sights ≡ sights_of old) }
{
    let parts = parts(alloc, &old)?;
    Ok(with_parts(old, parts))
}

// The head and the body of a rule, rewritten.
fn parts(alloc: Global, old: &Rule) -> Result<SeenParts, Memory>
    ensures { IfOk result (AreParts (spec.parts_made old.now)) }
{
    let mut walk = Walk {
        next: number_behind(&old.names)?,
        sights: Listed::new(alloc),
    };
    let mut added = Listed::new(alloc);
    let head = head(alloc, &old.head, &mut walk, &mut added)?;
    let mut body = literals(alloc, old.body.items(), &mut walk, &mut added)?;
    body.append_list(&mut added)?;
    Ok(SeenParts {
        head,
        body,
        sights: walk.sights,
    })
}

// A rule with another head and another body.
fn with_parts(old: Rule, parts: SeenParts) -> SeenRule
    requires { AreParts (spec.parts_made old) parts }
    ensures rule { result.rule ≡ spec.rewritten old }
    ensures sights { result.sights ≡ sights_of old }
{
    let Rule {
        head: _head,
        body: _body,
        arrow,
        names,
        places,
    } = old;
    let SeenParts { head, body, sights } = parts;
    let rule = Rule {
        head,
        body,
        arrow,
        names,
        places,
    };
    SeenRule { rule, sights }
}

// The number behind those of the named variables.
fn number_behind(names: &Listed<Name>) -> Result<u32, Memory>
    ensures { IfOk result (λ n. n ≡ length names.now + 1) }
{
    match u32::try_from(names.len()) {
        Ok(count) => match count.checked_add(1) {
            Some(number) => Ok(number),
            None => Err(Memory),
        },
        Err(_) => Err(Memory),
    }
}

// A head, rewritten.
fn head(
    alloc: Global,
    old: &Head,
    walk: &mut Walk,
    added: &mut Listed<Literal>,
) -> Result<Head, Memory>
    ensures { IfOk result (Becomes (spec.head_made old.now walk.old.next) walk.old walk.new added.old added.new) }
{
    match old {
        Head::Nothing => Ok(Head::Nothing),
        Head::Atom(old) => Ok(Head::Atom(atom(alloc, old, walk, added)?)),
        Head::Theory(old) => Ok(Head::Theory(theory(alloc, old, walk, added)?)),
        Head::Choice(old) => Ok(Head::Choice(choice(alloc, old, walk, added)?)),
    }
}

// A choice, rewritten.
fn choice(
    alloc: Global,
    old: &Choice,
    walk: &mut Walk,
    added: &mut Listed<Literal>,
) -> Result<Choice, Memory>
    ensures { IfOk result (Becomes (spec.choice_made old.now walk.old.next) walk.old walk.new added.old added.new) }
{
    let left = guard(alloc, &old.left, walk, added)?;
    let elements = elements(alloc, old.elements.items(), walk)?;
    let right = guard(alloc, &old.right, walk, added)?;
    Ok(Choice {
        left,
        elements,
        right,
    })
}

fn elements(
    alloc: Global,
    old: &[ChoiceElement],
    walk: &mut Walk,
) -> Result<Listed<ChoiceElement>, Memory>
    ensures { IfOk result (λ new. Becomes (each (map spec.choice_element_made old.now) walk.old.next) walk.old walk.new [] [] new) }
{
    let mut done = Listed::new(alloc);
    for one in old {
        done.push(element(alloc, one, walk)?)?;
    }
    Ok(done)
}

// An element of a choice, with what comes with it behind its condition.
fn element(alloc: Global, old: &ChoiceElement, walk: &mut Walk) -> Result<ChoiceElement, Memory>
    ensures { IfOk result (Becomes (spec.choice_element_made old.now walk.old.next) walk.old walk.new [] []) }
{
    let mut added = Listed::new(alloc);
    let atom = atom(alloc, &old.atom, walk, &mut added)?;
    let mut condition = literals(alloc, old.condition.items(), walk, &mut added)?;
    condition.append_list(&mut added)?;
    Ok(ChoiceElement { atom, condition })
}
