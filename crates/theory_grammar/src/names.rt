// Variables by number.
ghost use Rattle.std.specs.Prelude.{◌≡◌, ◌≤◌, [], length, IfOk, OnOk, OnErr};
ghost use Rattle.std.specs.Map.{lookup};
ghost use Rattle.std.specs.Str.{bytes_eq};
ghost use Rattle.grammar.specs.Tree.{number_of};
ghost use Rattle.theory_grammar.specs.State.{with_name};
ghost use Rattle.theory_grammar.specs.inner.Names.{IsFiled, with_number, numbered as numbered_there};

use indexmap::IndexMap;
use std::alloc::Global;
use std::marker::Model;
use symbols::{Listed, Memory};
use syntax_tree::Name;

// How many names are searched one by one; where there are more, a name is found by its hash.
const FEW: usize = 16;

/// The named variables of a rule by number, from 1. Clauses see them as the list of their names.
///
/// A name is found in constant time, however many there are.
#[derive(Drop)]
pub struct Names {
    list: Listed<Name>,
    // The numbers of the first names, so many of them; of none while there are few.
    numbers: IndexMap<Listed<u8>, usize>,
    filed: usize,
}

impl Model for Names {
    ghost use Rattle.std.specs.Prelude.{List};
    ghost use Rattle.syntax_tree.specs.declared.rule.Name.{Name};
    ghost use Rattle.theory_grammar.specs.inner.Names.{IsFiled};

    ghost Value = { List Name };

    ghost view = { λ names. names.list };

    ghost invariant = { λ names. IsFiled names.list names.filed names.numbers.entries };
}

impl Names {
    /// No names.
    pub fn new(alloc: Global) -> Names
        ensures { result ≡ [] }
    {
        Names {
            list: Listed::new(alloc),
            numbers: IndexMap::new(alloc),
            filed: 0,
        }
    }

    /// The names in a list of their own.
    pub fn into_list(self) -> Listed<Name>
        ensures { result ≡ self }
    {
        let Names {
            list,
            numbers: _,
            filed: _,
        } = self;
        list
    }

    // A copy of names.
    pub(crate) fn copied(alloc: Global, names: &[Name]) -> Result<Names, Memory>
        ensures { IfOk result (λ copy. copy ≡ names.now) }
    {
        Ok(Names {
            list: copied(alloc, names)?,
            numbers: IndexMap::new(alloc),
            filed: 0,
        })
    }

    // How many names there are.
    pub(crate) fn len(&self) -> usize
        ensures { result ≡ length self.now }
    {
        self.list.len()
    }

    // The number of a name, which is added where it is new. A rule with more names than numbers is more than
    // memory can hold.
    pub(crate) fn number(&mut self, alloc: Global, name: &[u8]) -> Result<u32, Memory>
        ensures { IfOk result (λ number. (self.new ≡ with_name self.old name.now) × (number ≡ number_of self.new name.now)) }
    {
        let found = find(
            alloc,
            self.list.items(),
            &mut self.numbers,
            &mut self.filed,
            name,
        )?;
        if found != 0 {
            return numbered(found);
        }
        let text = Listed::from_slice(alloc, name)?;
        self.list.push(Name { text })?;
        numbered(self.list.len())
    }
}

// A copy of names in a list.
fn copied(alloc: Global, names: &[Name]) -> Result<Listed<Name>, Memory>
    ensures { IfOk result (λ copy. copy ≡ names.now) }
{
    let mut copy = Listed::new(alloc);
    for name in names {
        let text = Listed::from_slice(alloc, name.text.items())?;
        copy.push(Name { text })?;
    }
    Ok(copy)
}

// The number of a name, from 1; 0 where it is not among them. Where there are many, the numbers of all are filed.
fn find(
    alloc: Global,
    names: &[Name],
    numbers: &mut IndexMap<Listed<u8>, usize>,
    filed: &mut usize,
    name: &[u8],
) -> Result<usize, Memory>
    requires { IsFiled names.now filed.old numbers.old.entries }
    ensures value { IfOk result (λ number. number ≡ number_of names.now name.now) }
    ensures filed { IsFiled names.now filed.new numbers.new.entries }
{
    if names.len() <= FEW {
        return Ok(number_in(names, name));
    }
    file_all(alloc, names, numbers, filed)?;
    filed_number(alloc, numbers, name)
}

// The number of a name, from 1; 0 where it is not among them.
fn number_in(names: &[Name], name: &[u8]) -> usize
    ensures value { result ≡ number_of names.now name.now }
    ensures within { result ≤ length names.now }
{
    for (at, other) in names.iter().enumerate() {
        if other.text.items() == name {
            return at + 1;
        }
    }
    0
}

// Files the numbers of all names.
fn file_all(
    alloc: Global,
    names: &[Name],
    numbers: &mut IndexMap<Listed<u8>, usize>,
    filed: &mut usize,
) -> Result<(), Memory>
    requires { IsFiled names.now filed.old numbers.old.entries }
    ensures all { OnOk result (filed.new ≡ length names.now) }
    ensures filed { IsFiled names.now filed.new numbers.new.entries }
{
    while *filed < names.len() {
        file(alloc, numbers, &names[*filed].text, *filed + 1)?;
        *filed += 1;
    }
    Ok(())
}

// Files the number of a name, unless it has one.
fn file(
    alloc: Global,
    numbers: &mut IndexMap<Listed<u8>, usize>,
    name: &Listed<u8>,
    number: usize,
) -> Result<(), Memory>
    ensures ok { OnOk result (numbers.new.entries ≡ with_number numbers.old.entries name.now number) }
    ensures err { OnErr result (numbers.new.entries ≡ numbers.old.entries) }
{
    if numbers.contains_key(name) {
        return Ok(());
    }
    let name = Listed::from_slice(alloc, name.items())?;
    numbers.insert(name, number)?;
    Ok(())
}

// The number that is filed for a name, 0 where none is.
fn filed_number(
    alloc: Global,
    numbers: &IndexMap<Listed<u8>, usize>,
    name: &[u8],
) -> Result<usize, Memory>
    ensures { IfOk result (λ number. number ≡ numbered_there (lookup (bytes_eq name.now) numbers.now.entries)) }
{
    let name = Listed::from_slice(alloc, name)?;
    match numbers.get(&name) {
        Some(number) => Ok(*number),
        None => Ok(0),
    }
}

fn numbered(place: usize) -> Result<u32, Memory>
    ensures { IfOk result (λ number. number ≡ place) }
{
    match u32::try_from(place) {
        Ok(number) => Ok(number),
        Err(_) => Err(Memory),
    }
}
