// Why a call refuses its input. The names are those of the C header, and each has the rules' number.
#![tactic(auto)]

ghost use Rattle.std.specs.Prelude.{◌≡◌, MatchResult};
ghost use Rattle.refusals.specs.Refusals.{number};

#[derive(Clone, Copy, Debug, PartialEq, Eq)]
pub enum Refusal {
    BadThreshold = 1,
    BadSecretLength = 2,
    BadRandomLength = 3,
    BadSharesLength = 4,
    BadSecretWord = 5,
    BadRandomWord = 6,
    BadRowsLength = 10,
    BadInputLength = 11,
    MemberBeyondN = 12,
    BadQuorum = 13,
    QuorumNotMet = 14,
    NoSurvivors = 15,
    TooFewAgree = 16,
    SetTooSmall = 17,
    BadValue = 18,
    BadCoefficientsLength = 19,
    TextTooLong = 21,
    BadFirstLine = 22,
    BadLine = 23,
    BadLineMember = 24,
    BadBufferLength = 25,
    TextBufferTooShort = 31,
    BadDay = 32,
}

impl From<Refusal> for u16 {
    // The rules' number.
    fn from(refusal: Refusal) -> u16
        ensures { result ≡ number refusal }
    {
        refusal as u16
    }
}

// 0 when it is done, and else the refusal's number.
pub fn number_of<T: Drop>(outcome: Result<T, Refusal>) -> u16
    ensures { MatchResult outcome (λ done. result ≡ 0) (λ refusal. result ≡ number refusal) }
{
    match outcome {
        Ok(_) => 0,
        Err(refusal) => u16::from(refusal),
    }
}
