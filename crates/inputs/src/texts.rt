// Reading the texts of the inputs.
ghost use Rattle.std.specs.Prelude.{length, map, IfOk, IfErr, IsErrOf};
ghost use Rattle.outside_io.specs.Faults.{RisesWhere};
ghost use Rattle.inputs.specs.Sizes.{AreTexts};
ghost use Rattle.inputs.specs.Stops.{IsNumbered, IsStoppedBy};

use crate::names::name_at;
use outside_io::{Files, ReadStop, read_text};
use std::alloc::Global;
use symbols::Listed;

// The most bytes of a text, 16 MiB, and of all texts, 64 MiB.
const MOST_BYTES: usize = 16_777_216;

const MOST_IN_ALL: usize = 67_108_864;

/// Why the texts are not read.
#[derive(Clone, Copy, Debug, PartialEq, Eq)]
pub enum TextsStop {
    /// An input failed.
    Failed,
    /// The text of the input with this number, from 0, is too large, or with it all texts are.
    TooLarge(usize),
    /// Memory could not be had.
    Memory,
}

/// The texts of the inputs under these names, in order.
///
/// A text has at most 16 MiB, and all of them have at most 64 MiB. Of a text no more than one byte is taken beyond what it may have.
pub fn read_texts<F: Files>(
    alloc: Global,
    names: &[&str],
    files: &mut F,
) -> Result<Listed<Listed<u8>>, TextsStop>
    ensures texts { IfOk result (AreTexts (F.tells files.old) (map (λ name. name.now) names.now)) }
    ensures stop { IfErr result (IsStoppedBy (F.tells files.old) (map (λ name. name.now) names.now) (F.tells files.new).taken) }
    ensures number { IfErr result (IsNumbered (length names.now)) }
    ensures cause { RisesWhere (IsErrOf result TextsStop.Failed) (F.tells files.old).faults (F.tells files.new).faults }
{
    let mut texts = Listed::new(alloc);
    let mut room = MOST_IN_ALL;
    for at in 0..names.len() {
        let most = if room < MOST_BYTES { room } else { MOST_BYTES };
        match read_text(alloc, files, name_at(names, at), most) {
            Ok(text) => {
                room -= text.len();
                match texts.push(text) {
                    Ok(()) => {}
                    Err(_) => return Err(TextsStop::Memory),
                }
            }
            Err(ReadStop::Failed) => return Err(TextsStop::Failed),
            Err(ReadStop::TooLarge) => return Err(TextsStop::TooLarge(at)),
            Err(ReadStop::Memory) => return Err(TextsStop::Memory),
        }
    }
    Ok(texts)
}
