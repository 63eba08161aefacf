// The refusals of documents 01 and 02, by their words, and the numbers that they have there.
#![tactic(auto)]

ghost use Rattle.std.specs.Prelude.{◌≡◌};
ghost use Rattle.refusal.specs.Answers.{number, number_of};

// Why a call is refused; a wrong parity comes with the lowest failing parity position.
#[derive(Clone, Copy, Debug, PartialEq, Eq)]
pub enum Refusal {
    Plan,
    Dummy,
    Full,
    Length,
    Table,
    Register,
    Sync,
    Parity(u16),
    Bch,
    Tail,
    Label,
    Value,
    Order,
    Total,
    Packet,
    Block,
    Coordinate,
}

impl Refusal {
    // Its number, for C and for what is told beside other values.
    pub fn number(self) -> u8
        ensures { result ≡ number_of self }
    {
        match self {
            Refusal::Plan => 1,
            Refusal::Dummy => 2,
            Refusal::Full => 3,
            Refusal::Length => 4,
            Refusal::Table => 5,
            Refusal::Register => 6,
            Refusal::Sync => 7,
            Refusal::Parity(_) => 8,
            Refusal::Bch => 9,
            Refusal::Tail => 11,
            Refusal::Label => 12,
            Refusal::Value => 13,
            Refusal::Order => 14,
            Refusal::Total => 15,
            Refusal::Packet => 16,
            Refusal::Block => 17,
            Refusal::Coordinate => 18,
        }
    }
}

// The number of what a call answers: 0 where it is accepted.
pub fn number(answer: Result<(), Refusal>) -> u8
    ensures { result ≡ number answer }
{
    match answer {
        Ok(()) => 0,
        Err(refused) => refused.number(),
    }
}
