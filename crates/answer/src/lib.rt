// What a call answers that writes bytes into a lent output. The numbers are those of SCOPE 2;
// specs/Rules.antt says how the order of a call's refusals decides, and specs/Values.antt which number
// and values each case stands for.
#![tactic(auto)]

ghost use Rattle.std.specs.Prelude.{◌≡◌};
ghost use Rattle.std.specs.declared.result.Result.TheVariants.{Err};
ghost use Rattle.answer.specs.Reasons.{number};
ghost use Rattle.answer.specs.Values.{refusal, refused};

// Why a call refuses: each reason of the list, in its order.
#[derive(Clone, Copy, PartialEq, Eq)]
pub enum Reason {
    // 1: what is to be written is longer than the output.
    NoRoom,
    // 2: no PES packet of teletext begins there.
    NotAPacket,
    // 3: a PES packet's length field.
    PacketLength,
    // 4: a PES packet's flags.
    PacketFlags,
    // 5: the data_identifier.
    DataIdentifier,
    // 6: a unit that the packet cuts off.
    UnitCut,
    // 7: a unit's id.
    UnitId,
    // 8: a text unit's length.
    UnitLength,
    // 9: a text unit's line or framing byte.
    UnitLine,
    // 10: a protected byte that decodes to nothing.
    Undecodable,
    // 11: a block's checksum.
    Checksum,
    // 12: a block of another application or kind, or one not free to everyone.
    OtherBlock,
    // 13: a length that no such thing has.
    Length,
    // 14: a block's loops, sizes or fill.
    Parts,
    // 15: a value that has no room in its field or that reading would refuse.
    Value,
    // 16: a setting, a state, a part or a packet out of range.
    Range,
    // 20: a line of a day sheet, out of form or out of order.
    SheetLine,
    // 21: a day sheet of too many entries or bytes.
    SheetSize,
    // 22: a block number of another edition.
    Edition,
    // 23: a string byte of even parity.
    Parity,
    // 24: no Application Information among the blocks.
    NoInformation,
    // 25: an entry whose count of mended bytes would be lost.
    MendedLost,
    // 26: more subtitles than a descriptor holds.
    TooMany,
    // 27: bytes that are no teletext descriptor.
    NotADescriptor,
}

impl From<Reason> for u8 {
    ghost from_gives = { λ reason n. n ≡ number reason };

    // The number that the list gives a reason.
    fn from(reason: Reason) -> u8 {
        match reason {
            Reason::NoRoom => 1,
            Reason::NotAPacket => 2,
            Reason::PacketLength => 3,
            Reason::PacketFlags => 4,
            Reason::DataIdentifier => 5,
            Reason::UnitCut => 6,
            Reason::UnitId => 7,
            Reason::UnitLength => 8,
            Reason::UnitLine => 9,
            Reason::Undecodable => 10,
            Reason::Checksum => 11,
            Reason::OtherBlock => 12,
            Reason::Length => 13,
            Reason::Parts => 14,
            Reason::Value => 15,
            Reason::Range => 16,
            Reason::SheetLine => 20,
            Reason::SheetSize => 21,
            Reason::Edition => 22,
            Reason::Parity => 23,
            Reason::NoInformation => 24,
            Reason::MendedLost => 25,
            Reason::TooMany => 26,
            Reason::NotADescriptor => 27,
        }
    }
}

// A refusal: its number of the list, and the offset that the list gives with it. The output is then
// as it was lent.
// Kept: `refused_exactly` is said of any list of rules, and so of any number; `Reason` names those of the list.
#[derive(Drop)]
pub struct Refusal {
    pub no: u8,
    pub at: usize,
}

// Accepted: so many bytes stand at the front of the output, and the rest of it is as before.
pub type Answer = Result<usize, Refusal>;

impl Reason {
    // The answer that refuses for this reason and at this offset, of a call that answers anything.
    pub fn refuse<T>(self, at: usize) -> Result<T, Refusal>
        ensures { result ≡ Err (refusal (number self) at) }
    {
        Err(Refusal {
            no: u8::from(self),
            at,
        })
    }
}

// The answer that refuses, by this number and offset.
// Kept: a public call, whose edit answers as done, which the generic one can't.
pub fn refuse(no: u8, at: usize) -> Answer
    ensures { result ≡ refused no at }
{
    Err(Refusal { no, at })
}
