// Rules by number, under C names.
ghost use Rattle.coded.specs.Promise.{CompileCode, ListCode};
ghost use Rattle.saltreeve.specs.Code.{counts};

// Finds what breaks a rule, and writes the findings to the lent list as far as it reaches.
#[unsafe(no_mangle)]
pub extern "C" fn saltreeve_findings(
    words: &[u64],
    items: usize,
    concepts: usize,
    roles: usize,
    given: &[u64],
    out: &mut [u64],
) -> i64
    ensures { ListCode (counts items concepts roles) words.now given.now out.old out.new result }
{
    saltreeve::rules::saltreeve_findings(words, items, concepts, roles, given, out)
}

// Compiles a rule to a query, and writes its items to the lent room.
#[unsafe(no_mangle)]
pub extern "C" fn saltreeve_compile(
    items: usize,
    concepts: usize,
    roles: usize,
    given: &[u64],
    room: &mut [u16],
) -> i64
    ensures { CompileCode (counts items concepts roles) given.now room.old room.new result }
{
    saltreeve::rules::saltreeve_compile(items, concepts, roles, given, room)
}
