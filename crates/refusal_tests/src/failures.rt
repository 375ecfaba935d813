// Where a rule that may not be grounded is shown, and what is said of it.
use fine_texts::{TextStop, fine_program};
use std::alloc::Global;
use std::test::Fail;
use symbols::{Listed, Memory};

// Whether two texts under the names `one` and `-` are refused with this line, and not at all where it is empty.
fn is_refused(alloc: Global, first: &str, text: &str, line: &str) -> Result<bool, Memory> {
    let mut texts = Listed::new(alloc);
    texts.push(Listed::from_slice(alloc, first.as_bytes())?)?;
    texts.push(Listed::from_slice(alloc, text.as_bytes())?)?;
    match fine_program(alloc, &["one", "-"], texts.items()) {
        Ok(_) => Ok(line.is_empty()),
        Err(TextStop::Refused(found)) => Ok(found.items() == line.as_bytes()),
        Err(TextStop::Memory) => Err(Memory),
    }
}

#[test]
fn failures_are_shown_at_their_places(rt: HostRuntime) -> Result<(), Fail> {
    let rows = [
        ("q(1).", "p(X) :- q(X).", ""),
        (
            "q(1).",
            "p(1).\n p(X) :- not q(X).",
            "-:2:4: error: unsafe variable X\n",
        ),
        ("q(1).", "p(_).", "-:1:3: error: unsafe variable _\n"),
        ("q(1).", "p(1..X).", "-:1:6: error: unsafe variable X\n"),
        ("p(f(Y..X)..3) :- r(X,Y).", "r(0,1).", ""),
        (
            "p(Y) :- q(1).",
            "p(X) :- not q(X).",
            "one:1:3: error: unsafe variable Y\n",
        ),
        (
            "{q(1)}.",
            "p(2). &sum{1 : p(2), q(1)} = x.",
            "-:1:22: error: predicate q/1 is not a domain predicate\n",
        ),
        (
            "{q(1)}.",
            "a :- q(1), &sum{1 : q(1)} > 0.",
            "-:1:21: error: predicate q/1 is not a domain predicate\n",
        ),
        (
            "{q(1)}. p(2).",
            "{a : p(2); b} 1 :- p(2), &sum{1 : p(2); 2 : p(2), q} > 0, &sum{3 : not q(1)} < 2.",
            "-:1:72: error: predicate q/1 is not a domain predicate\n",
        ),
        (
            "p(0). p(X) :- p(X).",
            "",
            "one:1:7: error: recursive rule with a variable\n",
        ),
        ("p(0).", "a b.", "-:1:3: error: syntax error\n"),
    ];
    for (first, text, line) in rows {
        assert!(rt; is_refused(rt.alloc(), first, text, line)?, "{text}");
    }
    Ok(())
}
