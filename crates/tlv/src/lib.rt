// TLV packets: what filling and reading share, and what both calls answer.
#![tactic(auto)]

ghost use Rattle.std.specs.Prelude.{◌≡◌};
ghost use Rattle.tlv.specs.Calls.{as_fill, as_read};

mod packets;
mod sizes;

pub use packets::{body_ok, head_ok, size_at};
use refusal::Refusal;
pub use sizes::slots_ok;

// The type of null packets, and every octet of their bodies.
pub const NULL: u8 = 0xFF;

// Stands for no octet: in a report, and as the first octet to read.
pub const NONE: u16 = 65535;

// What filling answers: octets taken in all, and octets of a cut filler that are owed.
#[derive(Clone, Copy)]
pub struct Filled {
    pub taken: usize,
    pub owed: usize,
}

// The same for C, where a Result does not cross: with the number, 0 or the refusal's; zeros by a refusal.
#[repr(C)]
#[derive(Clone, Copy)]
pub struct FillAnswer {
    pub number: u8,
    pub taken: usize,
    pub owed: usize,
}

// Number and counts of what filling answers.
impl From<Result<Filled, Refusal>> for FillAnswer {
    ghost from_gives = { λ answer told. told ≡ as_fill answer };

    fn from(answer: Result<Filled, Refusal>) -> FillAnswer {
        match answer {
            Ok(filled) => FillAnswer {
                number: 0,
                taken: filled.taken,
                owed: filled.owed,
            },
            Err(refused) => FillAnswer {
                number: refused.number(),
                taken: 0,
                owed: 0,
            },
        }
    }
}

// What reading answers: octets written, and where in the slots the unfinished one begins.
#[derive(Clone, Copy)]
pub struct Unpacked {
    pub written: usize,
    pub unfinished: usize,
}

// The same for C: with the number, 0 or the refusal's; zeros by a refusal.
#[repr(C)]
#[derive(Clone, Copy)]
pub struct ReadAnswer {
    pub number: u8,
    pub written: usize,
    pub unfinished: usize,
}

// Number, count and place of what reading answers.
impl From<Result<Unpacked, Refusal>> for ReadAnswer {
    ghost from_gives = { λ answer told. told ≡ as_read answer };

    fn from(answer: Result<Unpacked, Refusal>) -> ReadAnswer {
        match answer {
            Ok(unpacked) => ReadAnswer {
                number: 0,
                written: unpacked.written,
                unfinished: unpacked.unfinished,
            },
            Err(refused) => ReadAnswer {
                number: refused.number(),
                written: 0,
                unfinished: 0,
            },
        }
    }
}
