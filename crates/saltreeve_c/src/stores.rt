// Whole stores and whole lists of statements, under C names.
ghost use Rattle.batch.specs.Promise.{AddsAll};
ghost use Rattle.convert.specs.Codes.{ConvertCode};
ghost use Rattle.saltreeve.specs.Code.{counts};

// Moves each cell of the store `source` to its place in the store of the other size.
#[unsafe(no_mangle)]
pub extern "C" fn saltreeve_convert(
    source: &[u64],
    items: usize,
    concepts: usize,
    roles: usize,
    target: &mut [u64],
) -> i64
    ensures { ConvertCode (counts items concepts roles) source.now target.old target.new result }
{
    saltreeve::stores::saltreeve_convert(source, items, concepts, roles, target)
}

// Adds statements one after the other, as many as have a place for their answers, and says how many they are.
#[unsafe(no_mangle)]
pub extern "C" fn saltreeve_add_all(
    words: &mut [u64],
    items: usize,
    concepts: usize,
    roles: usize,
    statements: &[u64],
    answers: &mut [i64],
) -> usize
    ensures { AddsAll (counts items concepts roles) statements.now answers.old answers.new words.old words.new result }
{
    saltreeve::stores::saltreeve_add_all(words, items, concepts, roles, statements, answers)
}
