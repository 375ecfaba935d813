// What is kept of a statement while it is read.
ghost use Rattle.std.specs.Prelude.{◌≡◌, [], None};
ghost use Rattle.grammar.specs.Check.{first_of, fails_where};
ghost use Rattle.theory_grammar.specs.TheoryParts.{with_bad};

use grammar::{Check, Failing};
use std::alloc::Global;
use symbols::Listed;
use theory_grammar::{Names, Seen, sooner_if, sooner_term};

// What was seen of a statement so far, and the check that fails first but for the terms that were seen to be bad.
#[derive(Drop)]
pub(crate) struct Kept {
    pub seen: Seen,
    pub failing: Option<Failing>,
}

impl Kept {
    pub(crate) fn new(alloc: Global) -> Kept
        ensures { result ≡ record { seen = record { names = []; places = []; bad = None }; failing = None } }
    {
        Kept {
            seen: Seen {
                names: Names::new(alloc),
                places: Listed::new(alloc),
                bad: None,
            },
            failing: None,
        }
    }

    // Notes a check at a word, if it fails.
    pub(crate) fn fail_at(&mut self, fails: bool, check: Check, at: usize)
        ensures { self.new ≡ record self.old { failing = first_of self.old.failing (fails_where fails check at) } }
    {
        self.failing = sooner_if(self.failing, fails, check, at);
    }

    // The check that fails first.
    pub(crate) fn first(&self) -> Option<Failing>
        ensures { result ≡ with_bad self.now.failing self.now.seen.bad }
    {
        sooner_term(self.failing, self.seen.bad)
    }

    // Notes the check that fails first in place of all that was noted.
    pub(crate) fn settle(&mut self, failing: Option<Failing>)
        ensures { self.new ≡ record { seen = record self.old.seen { bad = None }; failing = failing } }
    {
        self.failing = failing;
        self.seen.bad = None;
    }
}
