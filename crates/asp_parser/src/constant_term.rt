// The value of a constant as a term.
ghost use Rattle.std.specs.Prelude.{◌≡◌, ◌<◌, [], length, IfOk};
ghost use Rattle.symbols.specs.Table.{symbol_at};
ghost use Rattle.syntax_tree.specs.declared.term.Term.TheVariants.{Function};
ghost use Rattle.asp_parser.specs.Replacement as spec;

use sqlite_items::Items;
use std::alloc::Global;
use symbols::{Listed, Memory, SymbolId, SymbolTable, SymbolView};
use syntax_tree::Term;

// A symbol as a term.
pub(crate) fn term_of(alloc: Global, symbols: &SymbolTable, id: SymbolId) -> Result<Term, Memory>
    requires { id < length symbols.now }
    ensures { IfOk result (λ term. term ≡ spec.term_of (symbol_at symbols.now id)) }
{
    match symbols.view(id) {
        SymbolView::Number(n) => Ok(Term::Number(n)),
        SymbolView::Identifier(name) => identifier(alloc, name),
        SymbolView::Text(text) => Ok(Term::Text(Listed::from_slice(alloc, text.as_bytes())?)),
        SymbolView::Function(name, args) => {
            let mut terms = Items::new(alloc);
            for arg in args {
                terms.push(term_of(alloc, symbols, *arg)?)?;
            }
            applied(alloc, name, terms)
        }
    }
}

// A name without arguments.
fn identifier(alloc: Global, name: &str) -> Result<Term, Memory>
    ensures { IfOk result (λ term. term ≡ Function name.now []) }
{
    let name = Listed::from_slice(alloc, name.as_bytes())?;
    Ok(Term::Function(name, Items::new(alloc)))
}

// A name before its arguments; where it is empty, a tuple.
fn applied(alloc: Global, name: &str, args: Items<Term>) -> Result<Term, Memory>
    ensures { IfOk result (λ term. term ≡ spec.applied name.now args) }
{
    if name.is_empty() {
        return Ok(Term::Tuple(args));
    }
    Ok(Term::Function(Listed::from_slice(alloc, name.as_bytes())?, args))
}
