// Refusals of the table: what each kind of them has in common is its number; and an answer as one signed number.
#![tactic(auto)]

ghost use Rattle.std.specs.Prelude.{◌≡◌, ◌<◌, ◌^◌, ℕ};
ghost use Rattle.std.specs.Result.{ForOk};
ghost use Rattle.refusal.specs.Signed.{signed_of};

// A refusal that has a number in the table.
pub trait Numbered {
    ghost number: { Self → ℕ };

    fn number(self) -> u8
        ensures { result ≡ number self };
}

// An answer as a signed number: how many, or minus the number of refusal.
pub fn signed<K: Numbered>(answer: Result<u64, K>) -> i64
    requires { ForOk answer (λ m. m < 2 ^ 63) }
    ensures { result ≡ signed_of K.number answer }
{
    match answer {
        Ok(m) => m as i64,
        Err(k) => -(k.number() as i64),
    }
}
