// Programs rewritten.
ghost use Rattle.std.specs.Prelude.{◌≡◌, IfOk};
ghost use Rattle.rewriting.specs.Rewritten.{rewritten_statement};
ghost use Rattle.rewriting.specs.Order.{order_of_statement, sights_of_statement};
ghost use Rattle.rewriting.specs.Rewriting.{IsRewriting};

use crate::order::order;
use crate::rules::rewritten;
use crate::sight::Sight;
use std::alloc::Global;
use symbols::{Listed, Memory};
use syntax_tree::{Program, Statement};

/// A program whose rules are rewritten, with a list for each statement, which is empty where that is no rule.
#[derive(Drop)]
pub struct RewrittenProgram {
    pub program: Program,
    /// All variables of the rule, in the order in which they first occur in its text.
    pub orders: Listed<Listed<u32>>,
    /// What has a place in the rule's text, in order: the rule's `places` behind the first are theirs.
    pub sights: Listed<Listed<Sight>>,
}

/// The program with its rules rewritten; a refusal drops it.
///
/// Linear in the program; the recursion is as deep as terms nest. `Memory` comes also where a rule has 2^32 variables.
pub fn rewrite(alloc: Global, program: Program) -> Result<RewrittenProgram, Memory>
    ensures { IfOk result (IsRewriting program) }
{
    let Program { statements, files } = program;
    let mut done = Listed::new(alloc);
    let mut orders = Listed::new(alloc);
    let mut all_sights = Listed::new(alloc);
    for statement in statements.into_vec() {
        let seen = seen_statement(alloc, statement)?;
        done.push(seen.statement)?;
        orders.push(seen.order)?;
        all_sights.push(seen.sights)?;
    }
    Ok(RewrittenProgram {
        program: Program {
            statements: done,
            files,
        },
        orders,
        sights: all_sights,
    })
}

// A statement, rewritten, with its variables in order and what is seen in it.
#[derive(Drop)]
struct SeenStatement {
    statement: Statement,
    order: Listed<u32>,
    sights: Listed<Sight>,
}

// A statement, rewritten.
fn seen_statement(alloc: Global, old: Statement) -> Result<SeenStatement, Memory>
    ensures statement { IfOk result (λ new. new.statement ≡ rewritten_statement old) }
    ensures order { IfOk result (λ new. new.order ≡ order_of_statement old) }
    ensures sights { IfOk result (λ new. new.sights ≡ sights_of_statement old) }
{
    match old {
        Statement::Rule(rule) => {
            let seen = rewritten(alloc, rule)?;
            let order = order(alloc, seen.sights.items())?;
            Ok(SeenStatement {
                statement: Statement::Rule(seen.rule),
                order,
                sights: seen.sights,
            })
        }
        other => Ok(SeenStatement {
            statement: other,
            order: Listed::new(alloc),
            sights: Listed::new(alloc),
        }),
    }
}
