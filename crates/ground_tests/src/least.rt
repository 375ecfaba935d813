// Least models of definite rules.
use definite_rules::{DefiniteRules, least_model};
use std::alloc::Global;
use std::test::Fail;
use symbols::Memory;

// The rules of a text, as in `2:0,1 0:`, a head and the atoms of its body.
fn rules_of(alloc: Global, text: &str) -> Result<DefiniteRules, Memory> {
    let mut rules = DefiniteRules::new(alloc);
    for rule in text.split_whitespace() {
        let (head, body) = rule.split_once(':').unwrap_or((rule, ""));
        let mut atoms = Vec::new(alloc);
        for atom in body.split(',') {
            if let Ok(atom) = atom.parse() {
                atoms.push(atom)?;
            }
        }
        rules.push(head.parse().unwrap_or(0), atoms.as_slice())?;
    }
    Ok(rules)
}

// A digit for each atom, 1 where the rules give it; nothing where a rule names an atom that is not there.
fn flags(alloc: Global, rules: &DefiniteRules, atoms: usize) -> Result<String, Memory> {
    let mut out = String::new(alloc);
    if rules.is_below(atoms) {
        let least = least_model(alloc, atoms, rules)?;
        for flag in least.items() {
            out.push(if *flag { '1' } else { '0' })?;
        }
    }
    Ok(out)
}

// Whether the rules of a text give these atoms.
fn gives(alloc: Global, text: &str, wanted: &str) -> Result<bool, Memory> {
    let rules = rules_of(alloc, text)?;
    Ok(flags(alloc, &rules, wanted.len())?.as_str() == wanted)
}

#[test]
fn rules_give_their_least_model(rt: HostRuntime) -> Result<(), Fail> {
    let rows = [
        ("", "00"),
        ("1:", "010"),
        ("1:0 0:", "11"),
        ("0:1 1:0 2:", "001"),
        ("2:0,0,1,0 3:0,3,3 0: 1:", "1110"),
        ("0:1 0:2 0:2,3 2: 4:0", "10101"),
    ];
    for (text, wanted) in rows {
        assert!(rt; gives(rt.alloc(), text, wanted)?, "{text}");
    }
    Ok(())
}

// A chain of so many rules from atom 0 on, each after the one that it waits for, or before it.
fn chain(alloc: Global, count: u32, upwards: bool) -> Result<DefiniteRules, Memory> {
    let mut rules = DefiniteRules::new(alloc);
    rules.push(0, &[])?;
    for before in 0..count {
        let below = if upwards { before } else { count - before - 1 };
        rules.push(below + 1, &[below])?;
    }
    Ok(rules)
}

// Whether a chain gives all its atoms.
fn chain_gives_all(alloc: Global, upwards: bool) -> Result<bool, Memory> {
    let rules = chain(alloc, 65_535, upwards)?;
    let found = flags(alloc, &rules, 65_536)?;
    Ok(found.len() == 65_536 && !found.as_str().contains('0'))
}

#[test]
fn long_chains_give_all_their_atoms(rt: HostRuntime) -> Result<(), Fail> {
    for upwards in [true, false] {
        assert!(rt; chain_gives_all(rt.alloc(), upwards)?, "{upwards}");
    }
    Ok(())
}
