ghost use Rattle.std.specs.Prelude.{◌≡◌};
ghost use Rattle.text.specs.Bytes.{lower as lower_of};
ghost use Rattle.text.specs.Date.{digit as digit_of, two_digits, month as month_of, days_in, dated, date_shaped};

// The days of the months, 29 in February.
const DAYS: [u8; 12] = [31, 29, 31, 30, 31, 30, 31, 31, 30, 31, 30, 31];

// A-Z as a-z.
#[tactic(auto, unfolding(crate::specs::Bytes::lower))]
fn lower(b: u8) -> u8
    ensures { result ≡ lower_of b }
{
    b.to_ascii_lowercase()
}

// The place of the month with these first letters, from 0; 12 where there is none.
fn month(a: u8, b: u8, c: u8) -> usize
    ensures { result ≡ month_of a b c }
{
    let letters = [lower(a), lower(b), lower(c)];
    crate::part::place(&letters, b"jan feb mar apr may jun jul aug sep oct nov dec")
}

// The value of a digit, or 255.
#[tactic(auto, unfolding(crate::specs::Date::digit))]
pub fn digit(b: u8) -> u8
    ensures { result ≡ digit_of b }
{
    if b.is_ascii_digit() { b - b'0' } else { 255 }
}

// The value of two digits, or 255.
#[tactic(auto, unfolding(crate::specs::Date::two_digits))]
fn two_digits(a: u8, b: u8) -> u8
    ensures { result ≡ two_digits a b }
{
    let x = digit(a);
    let y = digit(b);
    if x <= 9 && y <= 9 { x * 10 + y } else { 255 }
}

// The days of the month at a place; 0 where there is no month.
#[tactic(auto, unfolding(crate::specs::Date::days_in))]
fn days_in(month: usize) -> u8
    ensures { result ≡ days_in month }
{
    if month < DAYS.len() { DAYS[month] } else { 0 }
}

// Whether a day's value, a byte and three letters make a date.
#[tactic(auto, unfolding(crate::specs::Date::dated, crate::specs::Date::days_in))]
fn is_date(day: u8, hyphen: u8, a: u8, b: u8, c: u8) -> bool
    ensures { result ≡ dated day hyphen (month_of a b c) }
{
    hyphen == b'-' && 1 <= day && day <= 31 && day <= days_in(month(a, b, c))
}

// Whether the bytes are date-shaped.
#[tactic(auto, unfolding(crate::specs::Date::date_shaped))]
pub fn date_shaped(s: &[u8]) -> bool
    ensures { result ≡ date_shaped s.now }
{
    match s {
        [x, hyphen, a, b, c] => is_date(digit(*x), *hyphen, *a, *b, *c),
        [x, y, hyphen, a, b, c] => is_date(two_digits(*x, *y), *hyphen, *a, *b, *c),
        _ => false,
    }
}
