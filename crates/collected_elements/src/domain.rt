// Elements of `&dom`.
ghost use Rattle.std.specs.Prelude.{◌≡◌, ◌||◌, length, All, IfOk, IsTrue, Err};
ghost use Rattle.symbols.specs.Table.{IsFront};
ghost use Rattle.syntax_tree.specs.Outcome.{IsKnown, bound_in};
ghost use Rattle.syntax_tree.specs.Tree.{is_term};
ghost use Rattle.syntax_tree.specs.declared.literal.TheoryName.TheVariants as name;
ghost use Rattle.program_meaning.specs.Comparison.{span_of};
ghost use Rattle.program_meaning.specs.Theory as spec;
ghost use Rattle.row_tests.specs.Reaches.{span_said};
ghost use Rattle.collected_elements.specs.inner.Places.{IsSpanOf, IsSpanBy};

use crate::judged::ElementStop;
use collected_terms::collect_term;
use row_tests::{Reach, integers_between};
use std::alloc::Global;
use symbols::{Memory, SymbolTable};
use syntax_tree::{Binding, Term};

// The two ends of an element, if none is undefined.
pub(crate) fn judge_span(
    alloc: Global,
    term: &Term,
    binding: &Binding,
    symbols: &mut SymbolTable,
) -> Result<Option<(i32, i32)>, ElementStop>
    requires term { IsTrue (is_term term.now) }
    requires binding { All (IsKnown (length symbols.old)) binding.now.values }
    ensures span { IfOk result (IsSpanOf (bound_in symbols.old binding.now.values) term.now) }
    ensures over { result ≡ Err ElementStop.Over → IsTrue (spec.first_over name.Dom (bound_in symbols.old binding.now.values) term.now) }
    ensures kept { IsFront symbols.old symbols.new }
{
    match collect_term(alloc, term, binding, symbols) {
        Err(_) => Err(ElementStop::Memory),
        Ok(found) => match integers(alloc, term, binding, symbols) {
            Err(_) => Err(ElementStop::Memory),
            Ok(reach) => by_reach(found.over, reach),
        },
    }
}

fn by_reach(over: bool, reach: Reach) -> Result<Option<(i32, i32)>, ElementStop>
    ensures span { IfOk result (IsSpanBy over (span_said reach)) }
    ensures over { result ≡ Err ElementStop.Over → IsTrue (over || spec.is_span_over (span_said reach)) }
{
    if over {
        return Err(ElementStop::Over);
    }
    match reach {
        Reach::Between(low, high) => Ok(Some((low, high))),
        Reach::Over => Err(ElementStop::Over),
        Reach::Undefined => Ok(None),
    }
}

// The integers that a term or an interval stands for.
fn integers(
    alloc: Global,
    term: &Term,
    binding: &Binding,
    symbols: &mut SymbolTable,
) -> Result<Reach, Memory>
    requires term { IsTrue (is_term term.now) }
    requires binding { All (IsKnown (length symbols.old)) binding.now.values }
    ensures reach { IfOk result (λ found. span_said found ≡ span_of (bound_in symbols.old binding.now.values) term.now) }
    ensures kept { IsFront symbols.old symbols.new }
{
    match term {
        Term::Interval(low, high) => {
            integers_between(alloc, low.get(), high.get(), binding, symbols)
        }
        _ => integers_between(alloc, term, term, binding, symbols),
    }
}
