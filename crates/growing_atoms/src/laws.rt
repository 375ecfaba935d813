// What holds of collected theory atoms. The function's contract is the law, and its body is empty.
ghost use Rattle.growing_atoms.specs.Laws.{KnownLaw, SameLaw};

/// Where a table grows, a theory atom whose ids are of the table keeps them (`known`), and its tuples and its guard are
/// the same ones (`same`).
pub fn collected_atoms_stay_as_tables_grow()
    ensures known { KnownLaw }
    ensures same { SameLaw }
{}
