// What the crates of the boundary to C share: no refusal, the answer of a call that fills a lent buffer, and the
// library's version. An enum cannot be exported, so each answer goes out as a struct of plain numbers, whose value
// for each case is a definition of specs/Answers.antt. include/nuvaskoe.h is made of the comments and items here.
#![tactic(auto)]

ghost use Rattle.std.specs.Prelude.{◌≡◌};
ghost use Rattle.ffi_answer.specs.Answers.{version, refusal_out, written_out};

use refusal::Refusal;

pub const VERSION_MAJOR: u32 = 0;

pub const VERSION_MINOR: u32 = 7;

pub const VERSION_PATCH: u32 = 0;

// Major × 10,000 + minor × 100 + patch.
pub const VERSION: u32 = VERSION_MAJOR * 10_000 + VERSION_MINOR * 100 + VERSION_PATCH;

// Why a call said no: a row of the table of refusals by its number, and the place.
// C: nuvaskoe_refusal
#[repr(C)]
#[derive(Clone, Copy)]
pub struct RefusalFields {
    pub number: u32, // from 1; at the boundary to C 0 is no refusal, and the rest of the answer then holds
    pub place: usize, // 6: the block's offset; 9: the byte's index in a trace, the bit's in a packed one; 0 elsewhere
}

pub const NONE: RefusalFields = RefusalFields {
    number: 0,
    place: 0,
};

impl From<Refusal> for RefusalFields {
    ghost from_gives = { λ why fields. fields ≡ refusal_out why };

    fn from(why: Refusal) -> RefusalFields {
        RefusalFields {
            number: why.number(),
            place: why.place(),
        }
    }
}

// The answer of a call that fills a lent buffer from its front.
// C: nuvaskoe_written
#[repr(C)]
#[derive(Clone, Copy)]
pub struct WrittenSize {
    pub refusal: RefusalFields,
    pub size: usize, // how many bytes or entries at the front are the result; 0 where refused
}

impl From<Result<usize, Refusal>> for WrittenSize {
    ghost from_gives = { λ written fields. fields ≡ written_out written };

    fn from(written: Result<usize, Refusal>) -> WrittenSize {
        match written {
            Ok(size) => WrittenSize {
                refusal: NONE,
                size,
            },
            Err(why) => WrittenSize {
                refusal: why.into(),
                size: 0,
            },
        }
    }
}

// The version of the archive that is linked: that of this header is NUVASKOE_VERSION.
#[unsafe(no_mangle)]
pub extern "C" fn nuvaskoe_version() -> u32
    ensures { result ≡ version }
{
    VERSION
}
