// Rules by number, under C names.
ghost use Rattle.coded.specs.Promise.{CompileCode, ListCode};
ghost use Rattle.saltreeve.specs.Code.{counts};

use store::Counts;

// Finds what breaks a rule, and writes the findings to the lent list as far as it reaches.
pub fn saltreeve_findings(
    words: &[u64],
    items: usize,
    concepts: usize,
    roles: usize,
    given: &[u64],
    out: &mut [u64],
) -> i64
    ensures { ListCode (counts items concepts roles) words.now given.now out.old out.new result }
{
    coded::findings::findings(
        words,
        Counts {
            items,
            concepts,
            roles,
        },
        given,
        out,
    )
}

// Compiles a rule to a query, and writes its items to the lent room.
pub fn saltreeve_compile(
    items: usize,
    concepts: usize,
    roles: usize,
    given: &[u64],
    room: &mut [u16],
) -> i64
    ensures { CompileCode (counts items concepts roles) given.now room.old room.new result }
{
    coded::queries::compile(
        Counts {
            items,
            concepts,
            roles,
        },
        given,
        room,
    )
}
