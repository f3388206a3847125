// Reading a client's own time scale.
#![tactic(auto)]

ghost use Rattle.std.specs.Prelude.{Ok, Err, ◌≡◌, replicate, MatchResult};
ghost use Rattle.refusal.specs.Refusal.{refusal_number};
ghost use Rattle.scale_text.specs.Read.{reading_of, day_fault, read_of};

use refusal::{Refusal, Refused};
use scale::{DAYS, WHOLE};
use text::{line, template};

// A scale: the shares of the days 1 to 366, in basis points.
#[repr(C)]
#[derive(Clone, Copy)]
pub struct Scale {
    pub shares: [u64; DAYS],
}

// What reading answers: refusal 0 and the scale, or a refusal, its line and a scale with every share 0. The line is 0
// where no single line is at fault. The refusal is a number, as in the struct of the header.
#[repr(C)]
#[derive(Clone, Copy)]
pub struct ScaleReading {
    pub refusal: u64,
    pub line: u64,
    pub scale: Scale,
}

// The shares read, or what refused the call.
impl From<Result<[u64; DAYS], Refused>> for ScaleReading {
    ghost from_gives = { λ read reading. reading ≡ reading_of read };

    fn from(read: Result<[u64; DAYS], Refused>) -> ScaleReading {
        match read {
            Ok(shares) => ScaleReading {
                refusal: 0,
                line: 0,
                scale: Scale { shares },
            },
            Err(refused) => ScaleReading {
                refusal: refused.refusal.number(),
                line: refused.number,
                scale: Scale { shares: [0; DAYS] },
            },
        }
    }
}

// What is at fault with the numbers on a day's line, after the share of the day before.
fn fault(day: u64, before: u64, number: u64, share: u64) -> Result<(), Refusal>
    ensures { refusal_number result ≡ day_fault day before number share }
{
    if number != day {
        return Err(Refusal::NotAScale);
    }
    if WHOLE < share {
        return Err(Refusal::ShareOutside);
    }
    if before < share {
        return Err(Refusal::ShareRising);
    }
    Ok(())
}

// Puts the shares of a text's lines in place of zeros, or tells the first line at fault; those of the lines before it
// stay there. The shares are lent, since a `Result` that holds them is copied with them. Bytes after the 366th line are
// 28 of line 367, whatever they are.
fn read_days(text: &[u8], shares: &mut [u64; DAYS]) -> Result<(), Refused>
    requires { shares.old ≡ replicate 366 0 }
    ensures { MatchResult result (λ _. reading_of (Ok shares.new) ≡ read_of text.now)
        (λ f. reading_of (Err f) ≡ read_of text.now) }
{
    let mut before = WHOLE;
    let mut at = 0;
    for k in 0..DAYS {
        if text.len() <= at {
            return Err(Refusal::NotAScale.at(0));
        }
        let day = k as u64 + 1;
        let end = line::end(text, at);
        if end == text.len() {
            return Err(Refusal::NotAScale.at(day));
        }
        let Some(values) = template::read_line(b"(day D S)", &text[at..end]) else {
            return Err(Refusal::NotAScale.at(day));
        };
        let share = values[1];
        if let Err(found) = fault(day, before, values[0], share) {
            return Err(found.at(day));
        }
        shares[k] = share;
        before = share;
        at = end + 1;
    }
    if at < text.len() {
        return Err(Refusal::NotAScale.at(367));
    }
    Ok(())
}

// Reads a scale text. The answer's shares are filled in their place; a refusal takes the place of the whole answer.
pub fn read(text: &[u8]) -> ScaleReading
    ensures { result ≡ read_of text.now }
{
    let mut reading = ScaleReading {
        refusal: 0,
        line: 0,
        scale: Scale { shares: [0; DAYS] },
    };
    if let Err(refused) = read_days(text, &mut reading.scale.shares) {
        reading = ScaleReading::from(Err(refused));
    }
    reading
}
