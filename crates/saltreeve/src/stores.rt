// Whole stores and whole lists of statements, under C names.
ghost use Rattle.batch.specs.Promise.{AddsAll};
ghost use Rattle.convert.specs.Codes.{ConvertCode};
ghost use Rattle.saltreeve.specs.Code.{counts};

use store::Counts;

// Moves each cell of the store `source` to its place in the store of the other size.
pub fn saltreeve_convert(
    source: &[u64],
    items: usize,
    concepts: usize,
    roles: usize,
    target: &mut [u64],
) -> i64
    ensures { ConvertCode (counts items concepts roles) source.now target.old target.new result }
{
    let a = convert::convert(
        source,
        Counts {
            items,
            concepts,
            roles,
        },
        target,
    );
    refusal::signed(a)
}

// Adds statements one after the other, as many as have a place for their answers, and says how many they are.
pub fn saltreeve_add_all(
    words: &mut [u64],
    items: usize,
    concepts: usize,
    roles: usize,
    statements: &[u64],
    answers: &mut [i64],
) -> usize
    ensures { AddsAll (counts items concepts roles) statements.now answers.old answers.new words.old words.new result }
{
    batch::add_all(
        words,
        Counts {
            items,
            concepts,
            roles,
        },
        statements,
        answers,
    )
}
