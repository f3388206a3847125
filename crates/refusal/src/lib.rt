// The refusals of documents 01 and 02. A call that is turned down answers with its refusal's number.
#![tactic(auto)]

ghost use Rattle.std.specs.Prelude.{◌≡◌};
ghost use Rattle.refusal.specs.Refusal.{number_of};

// A refusal is told by its number in the documents.
#[derive(Clone, Copy, PartialEq, Eq)]
pub enum Refusal {
    // A table text over 8,192 bytes.
    TableTooLong = 1,
    // A line of a table that is none of the four forms, or has no line feed.
    NotATableForm = 2,
    // A number of a table outside its range.
    TableNumberOutOfRange = 3,
    // A kind out of order, a ninth layer of a tier, or a treaty's number not above the one before.
    TableOutOfOrder = 4,
    // An attachment below the end of the band before.
    BandsOverlap = 5,
    // A programme that no table text reads to.
    NotAProgramme = 6,
    // A text longer than the buffer; the second number is the length needed.
    BufferTooShort = 7,
    // A standing that breaks a rule.
    NotAStanding = 8,
    // An events text over 65,536 bytes.
    EventsTooLong = 9,
    // A line that is not an event form, or has no line feed.
    NotAnEventForm = 10,
    // A number of an event outside its range.
    EventNumberOutOfRange = 11,
    // Over 64 losses.
    TooManyLosses = 12,
    // A day below the line before.
    DayGoesBack = 13,
    // A treaty other than 0 that the table lacks.
    NoSuchTreaty = 14,
    // Shares that no scale text reads to; a scale text that is short, long, out of form or has a day out of order.
    NotAScale = 28,
    // A share that is out of range.
    ShareOutside = 29,
    // A share above that of the day before.
    ShareRising = 30,
}

// A call turned down: the refusal and its second number, which is a line, a length or 0.
#[derive(Clone, Copy)]
pub struct Refused {
    pub refusal: Refusal,
    pub number: u64,
}

impl Refusal {
    pub fn number(self) -> u64
        ensures { result ≡ number_of self }
    {
        self as u64
    }

    // The refusal with its second number.
    pub fn at(self, number: u64) -> Refused
        ensures { result ≡ record { refusal = self; number = number } }
    {
        Refused {
            refusal: self,
            number,
        }
    }
}
