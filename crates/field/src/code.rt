ghost use Rattle.std.specs.Prelude.{◌≡◌, ◌≤◌, ◌<◌, length};
ghost use Rattle.field.specs.own.Code.{code_of, number};

// The number that up to three bytes make, with a 1 above them.
fn few(f: &[u8]) -> u32
    requires { length f.now ≤ 3 }
    ensures { (result ≡ number f.now) × (result < 33554432) }
{
    let n = f.len();
    match n {
        0 => 1,
        1 => u32::from_le_bytes([f[0], 1, 0, 0]),
        2 => u32::from_le_bytes([f[0], f[1], 1, 0]),
        _ => u32::from_le_bytes([f[0], f[1], f[2], 1]),
    }
}

// The number that up to seven bytes make, with a 1 above them; 0 for more.
pub fn code(f: &[u8]) -> u64
    ensures { result ≡ code_of f.now }
{
    let n = f.len();
    match n {
        0..=3 => u64::from(few(f)),
        4..=7 => text::chunk::four(f, 0) + 4294967296 * u64::from(few(&f[4..])),
        _ => 0,
    }
}
