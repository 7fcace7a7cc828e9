// The query of a rule as words.
ghost use Rattle.std.specs.Prelude.{◌≡◌};
ghost use Rattle.coded.specs.Promise.{CompileCode, outcome_code};
ghost use Rattle.coded.specs.own.Writing.{SmallOutcome};

use query::{Compiled, Query, QueryRefusal};
use refusal::Numbered;
use store::Counts;

// The answer of compiling as a number.
fn code(r: Result<Compiled, QueryRefusal>) -> i64
    requires { SmallOutcome r }
    ensures { result ≡ outcome_code r }
{
    match r {
        Ok(c) => (4 * c.items + c.answers) as i64,
        Err(k) => -i64::from(k.number()),
    }
}

// Compiles the rule that the words given say: four times the items of the query and its answer variables, and the items at the start of the room; or minus the number of refusal.
pub fn compile(counts: Counts, given: &[u64], room: &mut [u16]) -> i64
    ensures { CompileCode counts given.now room.old room.new result }
{
    let u = spelled::rules::rule_of(given);
    code(Query::compile(counts, &u, room))
}
