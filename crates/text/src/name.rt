ghost use Rattle.std.specs.Prelude.{◌≡◌};
ghost use Rattle.text.specs.Bytes.{every};
ghost use Rattle.text.specs.Name.{line_byte, name_byte, is_name};

// The most bytes of the name of a concept, a role or an item.
pub const MOST_BYTES: usize = 24;

// Whether the byte may stand in a name.
#[tactic(auto, unfolding(crate::specs::Name::name_byte))]
fn name_byte(b: u8) -> bool
    ensures { result ≡ name_byte b }
{
    // Not one matches!(..) of all the ranges: it takes over twice as long (tried).
    b.is_ascii_alphanumeric() || matches!(b, b'-' | b'.' | b'/' | b'_')
}

// Whether the bytes are a name.
#[tactic(auto, unfolding(crate::specs::Name::is_name))]
pub fn is_name(s: &[u8]) -> bool
    ensures { result ≡ is_name s.now }
{
    (1..=MOST_BYTES).contains(&s.len()) && s.iter().all(|b| name_byte(*b))
}

// Whether the byte may stand in a line.
#[tactic(auto, unfolding(crate::specs::Name::line_byte))]
pub fn line_byte(b: u8) -> bool
    ensures { result ≡ line_byte b }
{
    matches!(b, b' '..=b'~' | b'\t')
}

// Whether all the bytes may stand in a line.
pub fn line_bytes(s: &[u8]) -> bool
    ensures { result ≡ every line_byte s.now }
{
    s.iter().all(|b| line_byte(*b))
}
