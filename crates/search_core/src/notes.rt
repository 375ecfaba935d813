// What a search keeps of its derivation.
ghost use Rattle.std.specs.Prelude.{◌≡◌, ◌+◌, ◌++◌, [], ◌∷◌, None, Some, OnOk, OnErr, length};
ghost use Rattle.search_laws.specs.Giving.{claim_after};

use derivation_meaning::Claim;
use ground_model::Answer;
use learning::Given;
use std::alloc::Global;
use std::marker::Model;
use symbols::{Listed, Memory};

/// How many input nogoods there are, the last id that was taken, the answers that were given, and the claim.
/// Clauses see the next id in place of the last.
#[derive(Debug, Drop)]
pub(crate) struct Notes {
    inputs: u64,
    last: u64,
    given: Listed<Given>,
    claim: Option<Claim>,
}

impl Model for Notes {
    ghost use Rattle.std.specs.Prelude.{◌+◌, None};
    ghost use Rattle.learning.specs.Known.{Known};

    ghost Value = { Known };

    ghost view = { λ n. record { inputs = n.inputs; next = n.last + 1; given = n.given; best = None; claim = n.claim } };
}

impl Notes {
    /// Before the first line, where the input nogoods have the ids from 1 to their number.
    pub(crate) fn new(alloc: Global, inputs: u64) -> Notes
        ensures { result ≡ record { inputs = inputs; next = inputs + 1; given = []; best = None; claim = None } }
    {
        Notes {
            inputs,
            last: inputs,
            given: Listed::new(alloc),
            claim: None,
        }
    }

    /// The last id that was taken.
    pub(crate) fn last(&self) -> u64
        ensures { self.now.next ≡ result + 1 }
    {
        self.last
    }

    /// Ids up to this one were taken.
    pub(crate) fn take(&mut self, id: u64)
        ensures { self.new ≡ record self.old { next = id + 1 } }
    {
        self.last = id;
    }

    /// The answer was given under the id, the last that was taken.
    pub(crate) fn give(&mut self, id: u64, answer: Answer) -> Result<(), Memory>
        ensures ok { OnOk result (self.new ≡ record self.old { next = id + 1; given = self.old.given ++ record { id = id; answer = answer } ∷ [] }) }
        ensures err { OnErr result (self.new ≡ self.old) }
    {
        self.given.push(Given { id, answer })?;
        self.last = id;
        Ok(())
    }

    /// What was given is claimed to be all that there is.
    pub(crate) fn claim(&mut self)
        ensures { self.new ≡ record self.old { claim = Some (claim_after (length self.old.given)) } }
    {
        self.claim = Some(claim_for(self.given.len()));
    }
}

// What is claimed after so many answers.
fn claim_for(count: usize) -> Claim
    ensures { result ≡ claim_after count }
{
    if count == 0 {
        return Claim::Nothing;
    }
    Claim::All(count as u64)
}
