// Programs with their bodies in order.
ghost use Rattle.std.specs.Prelude.{◌≡◌, ◌<◌, length, slice_get, IfOk};
ghost use Rattle.std.specs.List.{AllZip};
ghost use Rattle.ordered_bodies.specs.Programs.{IsGroundableIn, IsOrderedIn, AreOrderedIn, IsOrderedProgram};

use crate::rules::ordered_rule;
use rewriting::RewrittenProgram;
use std::alloc::Global;
use symbols::{Listed, Memory};
use syntax_tree::{Program, Statement};

// A statement with its bodies in order.
fn ordered_statement(
    alloc: Global,
    statement: Statement,
    order: &[u32],
) -> Result<Statement, Memory>
    requires { IsGroundableIn statement order.now }
    ensures { IfOk result (IsOrderedIn order.now statement) }
{
    match statement {
        Statement::Rule(rule) => {
            let rule = ordered_rule(alloc, rule, order)?;
            Ok(Statement::Rule(rule))
        }
        Statement::Constant(name, term, place) => Ok(Statement::Constant(name, term, place)),
        Statement::ShowNothing => Ok(Statement::ShowNothing),
        Statement::Show(name, arity) => Ok(Statement::Show(name, arity)),
    }
}

// The order of the variables at a place.
fn order_at(orders: &[Listed<u32>], place: usize) -> &[u32]
    requires { place < length orders.now }
    ensures { slice_get orders.now place ≡ Some result.now }
{
    orders[place].items()
}

// Statements with their bodies in order.
fn ordered_statements(
    alloc: Global,
    mut left: Listed<Statement>,
    orders: &[Listed<u32>],
) -> Result<Listed<Statement>, Memory>
    requires { AllZip IsGroundableIn left orders.now }
    ensures { IfOk result (AreOrderedIn left orders.now) }
{
    let mut done = Listed::new(alloc);
    while let Some(statement) = left.pop() {
        let order = order_at(orders, left.len());
        let statement = ordered_statement(alloc, statement, order)?;
        done.push(statement)?;
    }
    done.reverse();
    Ok(done)
}

/// The program, of which each rule can be grounded, with its bodies and conditions in order; a refusal drops it.
///
/// Goes over a body once for each literal that comes before all variables are bound, and once more.
pub fn order_bodies(alloc: Global, program: RewrittenProgram) -> Result<RewrittenProgram, Memory>
    requires { AllZip IsGroundableIn program.program.statements program.orders }
    ensures { IfOk result (IsOrderedProgram program) }
{
    let RewrittenProgram {
        program,
        orders,
        sights,
    } = program;
    let Program { statements, files } = program;
    let statements = ordered_statements(alloc, statements, orders.items())?;
    Ok(RewrittenProgram {
        program: Program { statements, files },
        orders,
        sights,
    })
}
