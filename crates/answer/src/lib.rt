// What a call answers that writes a text into a lent buffer.
#![tactic(auto)]

ghost use Rattle.std.specs.Prelude.{◌≡◌};
ghost use Rattle.answer.specs.Outcome.{answered};

use refusal::Refused;

// Refusal 0 and the length of the text written, or a refusal and its second number. The refusal is a number, as in the
// struct of the header.
#[repr(C)]
#[derive(Clone, Copy)]
pub struct Answer {
    pub refusal: u64,
    pub number: u64,
}

// The length of the text written, or what refused the call.
impl From<Result<usize, Refused>> for Answer {
    ghost from_gives = { λ written answer. answer ≡ answered written };

    fn from(written: Result<usize, Refused>) -> Answer {
        match written {
            Ok(bytes) => Answer {
                refusal: 0,
                number: bytes as u64,
            },
            Err(refused) => Answer {
                refusal: refused.refusal.number(),
                number: refused.number,
            },
        }
    }
}
