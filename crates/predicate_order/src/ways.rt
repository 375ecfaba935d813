// Ways in which predicates are reached, by number.
ghost use Rattle.std.specs.Prelude.{◌≡◌, ◌<◌, ◌++◌, ◌∷◌, [], ℕ, List, map, length, Some, slice_get, IfOk, OnOk, if◌then◌else◌};
ghost use Rattle.predicate_order.specs.Ways as spec;
ghost use Rattle.predicate_order.specs.Ways.{NamedWay, from_other, ways_of, rule_of};
ghost use Rattle.predicate_order.specs.Judged.{AreWays, Adds, Judges};

use crate::predicate::Predicate;
use crate::reading::Reads;
use definite_rules::{DefiniteRules, least_model};
use indexmap::IndexSet;
use std::alloc::Global;
use symbols::{Listed, Memory};

/// A predicate, by its number, that is reached at once or from another one.
#[derive(Clone, Copy, Debug)]
pub struct Way {
    pub head: u32,
    pub from: Option<u32>,
}

/// Predicates, each once, and ways in which they are reached.
#[derive(Drop)]
pub struct Ways {
    pub(crate) table: IndexSet<Predicate>,
    pub(crate) ways: Listed<Way>,
}

// The number of a predicate, which it has already or gets now.
pub(crate) fn number(table: &mut IndexSet<Predicate>, predicate: Predicate) -> Result<u32, Memory>
    ensures number { IfOk result (λ n. slice_get table.new.keys n ≡ Some predicate) }
    ensures kept { (n : ℕ) (p : Predicate) → slice_get table.old.keys n ≡ Some p → slice_get table.new.keys n ≡ Some p }
{
    let (number, _) = table.insert_full(predicate)?;
    match u32::try_from(number) {
        Ok(number) => Ok(number),
        Err(_) => Err(Memory),
    }
}

impl Ways {
    // No ways.
    pub(crate) fn new(alloc: Global) -> Ways
        ensures { AreWays [] result }
    {
        Ways {
            table: IndexSet::new(alloc),
            ways: Listed::new(alloc),
        }
    }

    // Adds the ways of what is read.
    pub(crate) fn push(&mut self, reads: Reads) -> Result<(), Memory>
        ensures { OnOk result ((before : List NamedWay) → AreWays before self.old → AreWays (before ++ ways_of reads) self.new) }
    {
        let Reads {
            head,
            at_once,
            others,
        } = reads;
        let number = number(&mut self.table, head)?;
        self.push_once(number, at_once)?;
        self.push_others(number, others)?;
        Ok(())
    }

    // Adds that a predicate is reached at once, where it is.
    fn push_once(&mut self, number: u32, at_once: bool) -> Result<(), Memory>
        ensures { OnOk result (Adds number (λ head. if at_once then spec.at_once head ∷ [] else []) self.old self.new) }
    {
        if at_once {
            self.ways.push(Way {
                head: number,
                from: None,
            })?;
            return Ok(());
        }
        Ok(())
    }

    // Adds that a predicate is reached from each of others.
    fn push_others(&mut self, number: u32, others: Listed<Predicate>) -> Result<(), Memory>
        ensures { OnOk result (Adds number (λ head. map (from_other head) others) self.old self.new) }
    {
        for other in others.into_vec() {
            self.push_from(number, other)?;
        }
        Ok(())
    }

    fn push_from(&mut self, head: u32, other: Predicate) -> Result<(), Memory>
        ensures { OnOk result (Adds head (λ p. from_other p other ∷ []) self.old self.new) }
    {
        let from = number(&mut self.table, other)?;
        self.ways.push(Way {
            head,
            from: Some(from),
        })?;
        Ok(())
    }

    /// The flags of the predicates that are reached, by number.
    pub fn flags(&self, alloc: Global) -> Result<Listed<bool>, Memory>
        requires { (named : List NamedWay) × AreWays named self.now }
        ensures { IfOk result (λ flags. (named : List NamedWay) → AreWays named self.now → Judges self.now.table.keys flags named) }
    {
        let rules = rules_of(alloc, self.ways.items())?;
        let flags = least_model(alloc, self.table.len(), &rules)?;
        Ok(flags)
    }

    // The flags of the predicates that are reached from one of them, itself among them.
    pub(crate) fn flags_from(&self, alloc: Global, start: u32) -> Result<Listed<bool>, Memory>
        requires known { (named : List NamedWay) × AreWays named self.now }
        requires start { start < length self.now.table.keys }
        ensures { IfOk result (λ flags. (named : List NamedWay) (p : Predicate) → AreWays named self.now → slice_get self.now.table.keys start ≡ Some p → Judges self.now.table.keys flags (named ++ spec.at_once p ∷ [])) }
    {
        let mut rules = rules_of(alloc, self.ways.items())?;
        rules.push(start, &[])?;
        let flags = least_model(alloc, self.table.len(), &rules)?;
        Ok(flags)
    }
}

// Ways as definite rules.
fn rules_of(alloc: Global, ways: &[Way]) -> Result<DefiniteRules, Memory>
    ensures { IfOk result (λ rules. rules ≡ map rule_of ways.now) }
{
    let mut rules = DefiniteRules::new(alloc);
    for way in ways {
        push_way(*way, &mut rules)?;
    }
    Ok(rules)
}

fn push_way(way: Way, rules: &mut DefiniteRules) -> Result<(), Memory>
    ensures { OnOk result (rules.new ≡ rules.old ++ rule_of way ∷ []) }
{
    match way.from {
        Some(from) => {
            rules.push(way.head, &[from])?;
            Ok(())
        }
        None => {
            rules.push(way.head, &[])?;
            Ok(())
        }
    }
}
