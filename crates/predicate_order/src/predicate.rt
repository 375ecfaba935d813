// Predicates.
ghost use Rattle.std.specs.Prelude.{◌≡◌, IfOk};
ghost use Rattle.std.specs.Option.{option_to_list};

use std::alloc::Global;
use symbols::{Listed, Memory};

/// A name with a number of arguments.
#[derive(Debug, PartialEq, Eq, Hash, Drop)]
pub struct Predicate {
    pub name: Listed<u8>,
    pub count: usize,
}
