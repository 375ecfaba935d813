// Rows, sorted.
ghost use Rattle.std.specs.Prelude.{◌≡◌};
ghost use Rattle.std.specs.Cmp.Lexicographic.{slice_cmp};
ghost use Rattle.std.specs.List.Sorted.{IsPermutation};
ghost use Rattle.ground_model.specs.Members.{IsApart};
ghost use Rattle.program_meaning.specs.Ascending.{Ascends};
ghost use Rattle.program_meaning.specs.Substitution.{value_cmp};
ghost use Rattle.instance_search.specs.Found.{rows_in};

use crate::ordering::compare_rows;
use instance_search::Row;
use symbols::{Listed, SymbolTable};

/// The same rows in the order of instances: by their values from the left, symbols in their order and over last;
/// O(n log n) comparisons. Rows of a search are different ones, and so are in strict order then.
pub fn sort_rows(rows: Listed<Row>, symbols: &SymbolTable) -> Listed<Row>
    ensures sorted { IsApart (rows_in symbols.now rows) → Ascends (slice_cmp value_cmp) (rows_in symbols.now result) }
    ensures same { IsPermutation rows result }
{
    let mut sorted = rows.into_vec();
    sorted.sort_unstable_by(|a, b| compare_rows(a.values.items(), b.values.items(), symbols));
    Listed::from_vec(sorted)
}
