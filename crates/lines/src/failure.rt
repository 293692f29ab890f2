// Why the edit of a line was not made to last.
ghost use Rattle.std.specs.Prelude.{◌≡◌};
ghost use Rattle.lines.specs.Run.{number_told};
ghost use Rattle.lines.specs.declared.failure.Failure.TheVariants.{Refused};

use refusals::Refusal;

// Its commit was cut, which no commit of a line is, or a call was refused.
#[derive(Clone, Copy, Debug, PartialEq, Eq)]
pub enum Failure {
    Cut,
    Refused(Refusal),
}

impl From<Refusal> for Failure {
    ghost from_gives = { λ r f. f ≡ Refused r };

    fn from(r: Refusal) -> Failure {
        Self::Refused(r)
    }
}

impl From<Failure> for u8 {
    ghost from_gives = { λ f n. n ≡ number_told f };

    fn from(f: Failure) -> u8 {
        match f {
            Failure::Cut => 0,
            Failure::Refused(r) => u8::from(r),
        }
    }
}
