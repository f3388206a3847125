// The table text: what reading it answers. What reading and writing come to stands in the definitions.
#![tactic(auto)]

ghost use Rattle.std.specs.Prelude.{◌≡◌};
ghost use Rattle.table_text.specs.Read.{reading_of};

use programme::contract::Programme;
use refusal::Refused;

// What reading answers: refusal 0 and the programme, or a refusal, its line and the programme without contracts. The
// refusal is a number, as in the struct of the header.
#[repr(C)]
#[derive(Clone, Copy)]
pub struct Reading {
    pub refusal: u64,
    pub line: u64,
    pub programme: Programme,
}

// The programme read, or what refused the call.
impl From<Result<Programme, Refused>> for Reading {
    ghost from_gives = { λ read reading. reading ≡ reading_of read };

    fn from(read: Result<Programme, Refused>) -> Reading {
        match read {
            Ok(programme) => Reading {
                refusal: 0,
                line: 0,
                programme,
            },
            Err(refused) => Reading {
                refusal: refused.refusal.number(),
                line: refused.number,
                programme: Programme::empty(),
            },
        }
    }
}
