// What holds of the trees of forms. Each function's contract is the law, and its body is empty.
ghost use Rattle.seen_forms.specs.Laws.{HeadedLaw, ConstraintLaw};

/// In the tree of a rule is seen what is seen in its form, in the same order, be it a rule with a head (`headed`) or
/// without one (`constraint`).
pub fn trees_show_what_forms_show()
    ensures headed { HeadedLaw }
    ensures constraint { ConstraintLaw }
{}
