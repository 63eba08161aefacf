// TS packets into data octets and back.
ghost use Rattle.std.specs.Prelude.{◌≡◌, length};
ghost use Rattle.packets.specs.Packets.{packed, pack_number, unpacked, unpack_number};
ghost use Rattle.plan.specs.Rates.{packets_of};
ghost use Rattle.refusal.specs.Answers.{Answered};

#[unsafe(no_mangle)]
pub extern "C" fn s3_packets_of(rate: u32) -> usize
    ensures { result ≡ packets_of rate }
{
    plan::packets(rate)
}

#[unsafe(no_mangle)]
pub extern "C" fn s3_pack(rate: u32, packets: &[u8], octets: &mut [u8]) -> u8
    ensures { Answered (pack_number rate packets.now (length octets.old)) (packed (packets_of rate) packets.now) octets.old result octets.new }
{
    refusal::number(packets::pack(rate, packets, octets))
}

#[unsafe(no_mangle)]
pub extern "C" fn s3_unpack(rate: u32, octets: &[u8], packets: &mut [u8]) -> u8
    ensures { Answered (unpack_number rate octets.now (length packets.old)) (unpacked (packets_of rate) octets.now) packets.old result packets.new }
{
    refusal::number(packets::unpack(rate, octets, packets))
}
