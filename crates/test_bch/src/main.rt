// Writes the BCH bits of a few messages, a line of 192 characters for each.
#![tactic(auto)]

ghost use Rattle.std.specs.Prelude.{◌≡◌, length};
ghost use Rattle.test_bch.specs.Areas.{Areas};

use std::io;

// The bits as a line.
fn show(rt: &impl Print, bch: &mut [u8]) -> io::Result<()> {
    for bit in bch.iter_mut() {
        *bit = b'0' + *bit % 2;
    }
    rt.write_all(bch)?;
    rt.write_all(b"\n")
}

// The line of a message of octets.
fn octets_line(rt: &impl Print, octets: &[u8], bch: &mut [u8]) -> io::Result<()>
    requires { length bch.old ≡ 192 }
{
    bch::of_octets(octets, bch);
    show(rt, bch)
}

// The line of the octets' bits from a place on.
fn bits_line(
    rt: &impl Print,
    octets: &[u8],
    from: usize,
    run: &mut [u8],
    bch: &mut [u8],
) -> io::Result<()>
    requires { Areas octets.now from run.old bch.old }
{
    bits::expand(octets, run);
    bch::of_bits(&run[from..], bch);
    show(rt, bch)
}

fn main(rt: HostRuntime) -> io::Result<()> {
    let mut bch = [0u8; 192];
    let mut run = [0u8; 72];
    octets_line(&rt, b"123456789", &mut bch)?;
    octets_line(&rt, b"\x00\x00\x00", &mut bch)?;
    octets_line(&rt, b"\x00\x00\x01", &mut bch)?;
    bits_line(&rt, b"123456789", 2, &mut run, &mut bch)?;
    bits_line(&rt, b"123456789", 13, &mut run, &mut bch)?;
    bits_line(&rt, b"123456789", 71, &mut run, &mut bch)?;
    bits_line(&rt, b"123456789", 72, &mut run, &mut bch)
}
