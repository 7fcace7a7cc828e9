// What the programs take in: a whole input into a lent room. It knows nothing of sheets.
#![tactic(auto)]

ghost use Rattle.std.specs.Prelude.{◌≤◌, length, take};
ghost use Rattle.std.specs.Bool.{OnTrue};
ghost use Rattle.std.specs.Io.KnownBytes.{Consumes, IsAtEnd};

use std::io::Read;

// Reads until the room is full, the input ends or a read fails; gives how many bytes were put at the start of the room, which are those that the input lost.
pub fn read_full<R: Read>(input: &mut R, room: &mut [u8]) -> usize
    ensures within { result ≤ length room.new }
    ensures bytes { Consumes (R.remaining input.old) (R.remaining input.new) (take result room.new) }
{
    let mut done = 0;
    // Not a `for`: a read gives as many bytes as it likes.
    while done < room.len() {
        match input.read(&mut room[done..]) {
            Ok(0) | Err(_) => break,
            Ok(n) => done += n,
        }
    }
    done
}

// Whether the input has really ended, and not only failed.
pub fn ended<R: Read>(input: &mut R) -> bool
    ensures { OnTrue result (IsAtEnd (R.remaining input.new)) }
{
    let mut one = [0u8; 1];
    matches!(input.read(&mut one), Ok(0))
}
