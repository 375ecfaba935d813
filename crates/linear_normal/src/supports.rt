// Which bodies can give which atoms.
ghost use Rattle.std.specs.Prelude.{◌≡◌, ◌+◌, ◌++◌, OnOk};
ghost use Rattle.linear_normal.specs.Numbering.{element_supports, head_supports};

use crate::numbered::Support;
use crate::table::number_at;
use ground_model::{ChoiceItem, GroundHead};
use symbols::{Listed, Memory};

// Adds that each element's atom is supported by the element's body, where the first body has this place.
fn add_element_supports(
    first: usize,
    items: &[ChoiceItem],
    supports: &mut Listed<Support>,
) -> Result<(), Memory>
    ensures { OnOk result (supports.new ≡ supports.old ++ element_supports (first + 1) items.now) }
{
    let mut place = first;
    for item in items {
        let body = number_at(place)?;
        supports.push(Support {
            atom: item.atom,
            body,
        })?;
        place += 1;
    }
    Ok(())
}

// Adds what a head is supported by, where the rule's own body has this number.
pub(crate) fn add_supports(
    own: u32,
    head: &GroundHead,
    supports: &mut Listed<Support>,
) -> Result<(), Memory>
    ensures { OnOk result (supports.new ≡ supports.old ++ head_supports own head.now) }
{
    match head {
        GroundHead::Nothing => Ok(()),
        GroundHead::Theory(_) => Ok(()),
        GroundHead::Atom(atom) => {
            supports.push(Support {
                atom: *atom,
                body: own,
            })?;
            Ok(())
        }
        GroundHead::Choice(choice) => {
            add_element_supports(own as usize, choice.items.items(), supports)?;
            Ok(())
        }
    }
}
