// What the C face gives as plain numbers: the answers to questions as signed numbers.
#![tactic(auto)]

ghost use Rattle.std.specs.Prelude.{◌≡◌, ◌<◌};
ghost use Rattle.signed.specs.Codes.{SmallExplained, SmallFinding, explained_code, finding_code, refusal_code};

use finding::Explained;
use sheet::Refused;

// A refusal as a signed number.
fn refusal(line: usize, k: usize) -> i64
    requires { (line < 1000000) × (k < 100) }
    ensures { result ≡ refusal_code line k }
{
    -((100 * line + k) as i64)
}

// An answer as a signed number: the lines, or a refusal.
pub fn explained(r: Result<usize, Refused>) -> i64
    requires { SmallExplained r }
    ensures { result ≡ explained_code r }
{
    match r {
        Ok(m) => m as i64,
        Err(q) => refusal(q.line, q.why),
    }
}

// The same for a finding, with the concept that is absent.
pub fn finding(r: Result<Explained, Refused>) -> i64
    requires { SmallFinding r }
    ensures { result ≡ finding_code r }
{
    match r {
        Ok(e) => (1000000 * e.absent.0 + e.lines) as i64,
        Err(q) => refusal(q.line, q.why),
    }
}
