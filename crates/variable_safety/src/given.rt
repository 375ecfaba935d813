// Variables that are given, as a list and as flags.
ghost use Rattle.std.specs.Prelude.{◌≡◌, [], IfOk};
ghost use Rattle.variable_safety.specs.inner.Binding.{AreFlags};

use crate::flags::flags_of;
use std::alloc::Global;
use symbols::{Listed, Memory};

#[derive(Drop)]
pub(crate) struct Given {
    pub(crate) listed: Listed<u32>,
    pub(crate) flags: Listed<bool>,
    pub(crate) ghost flagged: { AreFlags listed flags },
}

impl Given {
    pub(crate) fn new(alloc: Global, listed: Listed<u32>) -> Result<Given, Memory>
        ensures { IfOk result (λ given. given.listed ≡ listed) }
    {
        let flags = flags_of(alloc, listed.items())?;
        Ok(Given { listed, flags })
    }
}
