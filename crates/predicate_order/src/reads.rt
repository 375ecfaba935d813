// What reaches the predicates in the head of a rule.
ghost use Rattle.std.specs.Prelude.{◌≡◌, ◌++◌, ◌∷◌, [], map, IfOk, OnOk};
ghost use Rattle.std.specs.List.{flat_map, list_any};
ghost use Rattle.std.specs.Option.{option_to_list};
ghost use Rattle.program_meaning.specs.Read.{literal_read, choice_read, head_read, rule_read, plain_of, plains};
ghost use Rattle.predicate_order.specs.Ways as spec;

use crate::predicate::Predicate;
use crate::reading::Reads;
use std::alloc::Global;
use symbols::{Listed, Memory};
use syntax_tree::{ChoiceElement, Head, Literal, Rule, Term};

// The predicate of an atom, if it has one.
pub(crate) fn named(alloc: Global, term: &Term) -> Result<Option<Predicate>, Memory>
    ensures { IfOk result (λ found. option_to_list found ≡ spec.named term.now) }
{
    match term {
        Term::Number(_) => Ok(None),
        Term::Text(_) => Ok(None),
        Term::Variable(_) => Ok(None),
        Term::Anonymous => Ok(None),
        Term::Function(name, args) => {
            let name = Listed::from_slice(alloc, name.items())?;
            Ok(Some(Predicate {
                name,
                count: args.len(),
            }))
        }
        Term::Tuple(_) => Ok(None),
        Term::Sum(_) => Ok(None),
        Term::Product(_) => Ok(None),
        Term::Minus(_) => Ok(None),
        Term::Interval(_, _) => Ok(None),
    }
}

// Puts the predicate of an atom, if it has one, behind those before it.
fn note_named(alloc: Global, atom: &Term, found: &mut Listed<Predicate>) -> Result<(), Memory>
    ensures { OnOk result (found.new ≡ found.old ++ spec.named atom.now) }
{
    match named(alloc, atom)? {
        Some(predicate) => {
            found.push(predicate)?;
            Ok(())
        }
        None => Ok(()),
    }
}

fn note_positive(
    alloc: Global,
    literal: &Literal,
    found: &mut Listed<Predicate>,
) -> Result<(), Memory>
    ensures { OnOk result (found.new ≡ found.old ++ spec.positives (plain_of (literal_read literal.now))) }
{
    match literal {
        Literal::Atom(atom, true) => note_named(alloc, atom, found),
        Literal::Atom(_, false) => Ok(()),
        Literal::Compare(_, _, _) => Ok(()),
        Literal::Theory(_, _) => Ok(()),
    }
}

// Puts the predicates of positive atoms behind those before them.
fn note_positives(
    alloc: Global,
    literals: &[Literal],
    found: &mut Listed<Predicate>,
) -> Result<(), Memory>
    ensures { OnOk result (found.new ≡ found.old ++ spec.positives (plains (map literal_read literals.now))) }
{
    for literal in literals {
        note_positive(alloc, literal, found)?;
    }
    Ok(())
}

// Whether a literal keeps the head from being of a domain predicate at once.
fn blocks(literal: &Literal) -> bool
    ensures { result ≡ spec.blocks (literal_read literal.now) }
{
    match literal {
        Literal::Atom(_, true) => false,
        Literal::Atom(_, false) => true,
        Literal::Compare(_, _, _) => false,
        Literal::Theory(_, _) => true,
    }
}

// Whether some literal does.
fn any_blocks(body: &[Literal]) -> bool
    ensures { result ≡ list_any spec.blocks (map literal_read body.now) }
{
    for literal in body {
        if blocks(literal) {
            return true;
        }
    }
    false
}

/// What keeps the predicates in a rule's head from being domain predicates.
pub fn blocking_reads(alloc: Global, rule: &Rule) -> Result<Listed<Reads>, Memory>
    ensures { IfOk result (λ reads. reads ≡ spec.blocking_reads (rule_read rule.now [])) }
{
    let mut found = Listed::new(alloc);
    note_blocking(alloc, &rule.head, rule.body.items(), &mut found)?;
    Ok(found)
}

fn note_blocking(
    alloc: Global,
    head: &Head,
    body: &[Literal],
    found: &mut Listed<Reads>,
) -> Result<(), Memory>
    ensures { OnOk result (found.new ≡ found.old ++ spec.head_blocking (head_read head.now) (map literal_read body.now)) }
{
    match head {
        Head::Nothing => Ok(()),
        Head::Atom(atom) => note_blocked(alloc, atom, body, found),
        Head::Theory(_) => Ok(()),
        Head::Choice(choice) => note_choices(alloc, choice.elements.items(), found),
    }
}

fn note_blocked(
    alloc: Global,
    atom: &Term,
    body: &[Literal],
    found: &mut Listed<Reads>,
) -> Result<(), Memory>
    ensures { OnOk result (found.new ≡ found.old ++ map (spec.blocking (map literal_read body.now)) (spec.named atom.now)) }
{
    match named(alloc, atom)? {
        Some(head) => push_blocked(alloc, head, body, found),
        None => Ok(()),
    }
}

fn push_blocked(
    alloc: Global,
    head: Predicate,
    body: &[Literal],
    found: &mut Listed<Reads>,
) -> Result<(), Memory>
    ensures { OnOk result (found.new ≡ found.old ++ spec.blocking (map literal_read body.now) head ∷ []) }
{
    let mut others = Listed::new(alloc);
    note_positives(alloc, body, &mut others)?;
    let at_once = any_blocks(body);
    found.push(Reads {
        head,
        at_once,
        others,
    })?;
    Ok(())
}

fn note_choices(
    alloc: Global,
    elements: &[ChoiceElement],
    found: &mut Listed<Reads>,
) -> Result<(), Memory>
    ensures { OnOk result (found.new ≡ found.old ++ flat_map spec.chosen_in (map choice_read elements.now)) }
{
    for element in elements {
        note_choice(alloc, element, found)?;
    }
    Ok(())
}

fn note_choice(
    alloc: Global,
    element: &ChoiceElement,
    found: &mut Listed<Reads>,
) -> Result<(), Memory>
    ensures { OnOk result (found.new ≡ found.old ++ spec.chosen_in (choice_read element.now)) }
{
    match named(alloc, &element.atom)? {
        Some(head) => push_chosen(alloc, head, found),
        None => Ok(()),
    }
}

fn push_chosen(alloc: Global, head: Predicate, found: &mut Listed<Reads>) -> Result<(), Memory>
    ensures { OnOk result (found.new ≡ found.old ++ spec.chosen head ∷ []) }
{
    found.push(Reads {
        head,
        at_once: true,
        others: Listed::new(alloc),
    })?;
    Ok(())
}

/// On what the predicates in a rule's head depend.
pub fn step_reads(alloc: Global, rule: &Rule) -> Result<Listed<Reads>, Memory>
    ensures { IfOk result (λ reads. reads ≡ spec.step_reads (rule_read rule.now [])) }
{
    let mut found = Listed::new(alloc);
    note_steps(alloc, &rule.head, rule.body.items(), &mut found)?;
    Ok(found)
}

fn note_steps(
    alloc: Global,
    head: &Head,
    body: &[Literal],
    found: &mut Listed<Reads>,
) -> Result<(), Memory>
    ensures { OnOk result (found.new ≡ found.old ++ spec.head_steps (head_read head.now) (plains (map literal_read body.now))) }
{
    match head {
        Head::Nothing => Ok(()),
        Head::Atom(atom) => note_stepped(alloc, atom, body, found),
        Head::Theory(_) => Ok(()),
        Head::Choice(choice) => note_choice_steps(alloc, choice.elements.items(), body, found),
    }
}

fn note_stepped(
    alloc: Global,
    atom: &Term,
    body: &[Literal],
    found: &mut Listed<Reads>,
) -> Result<(), Memory>
    ensures { OnOk result (found.new ≡ found.old ++ map (spec.stepping (spec.positives (plains (map literal_read body.now)))) (spec.named atom.now)) }
{
    match named(alloc, atom)? {
        Some(head) => push_stepped(alloc, head, body, found),
        None => Ok(()),
    }
}

fn push_stepped(
    alloc: Global,
    head: Predicate,
    body: &[Literal],
    found: &mut Listed<Reads>,
) -> Result<(), Memory>
    ensures { OnOk result (found.new ≡ found.old ++ spec.stepping (spec.positives (plains (map literal_read body.now))) head ∷ []) }
{
    let mut others = Listed::new(alloc);
    note_positives(alloc, body, &mut others)?;
    found.push(Reads {
        head,
        at_once: false,
        others,
    })?;
    Ok(())
}

fn note_choice_steps(
    alloc: Global,
    elements: &[ChoiceElement],
    body: &[Literal],
    found: &mut Listed<Reads>,
) -> Result<(), Memory>
    ensures { OnOk result (found.new ≡ found.old ++ flat_map (spec.steps_in (plains (map literal_read body.now))) (map choice_read elements.now)) }
{
    for element in elements {
        note_choice_step(alloc, element, body, found)?;
    }
    Ok(())
}

fn note_choice_step(
    alloc: Global,
    element: &ChoiceElement,
    body: &[Literal],
    found: &mut Listed<Reads>,
) -> Result<(), Memory>
    ensures { OnOk result (found.new ≡ found.old ++ spec.steps_in (plains (map literal_read body.now)) (choice_read element.now)) }
{
    match named(alloc, &element.atom)? {
        Some(head) => push_choice_step(alloc, head, element.condition.items(), body, found),
        None => Ok(()),
    }
}

fn push_choice_step(
    alloc: Global,
    head: Predicate,
    condition: &[Literal],
    body: &[Literal],
    found: &mut Listed<Reads>,
) -> Result<(), Memory>
    ensures { OnOk result (found.new ≡ found.old ++ spec.stepping (spec.positives (plains (map literal_read body.now)) ++ spec.positives (plains (map literal_read condition.now))) head ∷ []) }
{
    let mut others = Listed::new(alloc);
    note_positives(alloc, body, &mut others)?;
    note_positives(alloc, condition, &mut others)?;
    found.push(Reads {
        head,
        at_once: false,
        others,
    })?;
    Ok(())
}
