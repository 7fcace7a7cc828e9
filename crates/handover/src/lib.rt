// A text is handed over in the room that a host lends: all of it, or nothing and minus 8.
#![tactic(auto)]

ghost use Rattle.std.specs.Prelude.{◌≤◌, length, take};
ghost use Rattle.handover.specs.Room.{InRoom};
ghost use Rattle.handover.specs.own.Room.{Just};

// Puts the first n of some bytes into the lent room and says how many they are; minus 8, and nothing is put, if the room is shorter.
pub fn hand(own: &[u8], n: usize, room: &mut [u8]) -> i64
    requires { (n ≤ 100000) × (n ≤ length own.now) }
    ensures { InRoom (Just (take n own.now)) room.old room.new result }
{
    if room.len() < n {
        return -8;
    }
    text::write::put_all(room, 0, &own[..n]);
    n as i64
}
