ghost use Rattle.std.specs.Prelude.{◌≡◌, ◌∷◌, [], ◌+◌, ◌-◌, ◌<◌, ◌≤◌, min, length};
ghost use Rattle.text.specs.Text.{decimal, Wrote};

// Writes a byte at a place of the room, where it reaches that far; gives the next place.
pub fn put(room: &mut [u8], at: usize, b: u8) -> usize
    requires { at < 2000000 }
    ensures { Wrote room.old at (b ∷ []) room.new result }
{
    if at < room.len() {
        room[at] = b;
    }
    at + 1
}

// Writes bytes at a place of the room, as far as it reaches; gives the place past them.
pub fn put_all(room: &mut [u8], at: usize, bytes: &[u8]) -> usize
    requires { (at < 1000000) × (length bytes.now ≤ 100000) }
    ensures { Wrote room.old at bytes.now room.new result }
{
    let n = bytes.len().min(room.len().saturating_sub(at));
    for i in 0..n {
        room[at + i] = bytes[i];
    }
    at + bytes.len()
}

// Writes a number in decimal, without leading zeros; gives the place past it.
pub fn put_decimal(room: &mut [u8], at: usize, n: usize) -> usize
    requires { at < 1000000 }
    ensures { (Wrote room.old at (decimal n) room.new result) × (result ≤ at + 20) }
{
    let d = (n % 10) as u8;
    if n < 10 {
        put(room, at, 48 + d)
    } else {
        let p = put_decimal(room, at, n / 10);
        put(room, p, 48 + d)
    }
}
