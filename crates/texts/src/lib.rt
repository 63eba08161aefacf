// Texts written into an area that is lent, since nothing is allocated, one behind the other: each function answers the place
// behind its text.
#![tactic(auto)]

ghost use Rattle.std.specs.Prelude.{◌≡◌, ◌+◌, ◌≤◌, length};
ghost use Rattle.texts.specs.Decimals.{decimal, field};
ghost use Rattle.texts.specs.Needs.{Room, Number};
ghost use Rattle.texts.specs.Written.{Written};

pub fn put_text(out: &mut [u8], at: usize, text: &[u8]) -> usize
    requires { Room (length text.now) at out.old }
    ensures { Written text.now at out.old out.new result }
{
    let end = at + text.len();
    bits::copy(text, &mut out[at..end]);
    end
}

// A digit's octet.
fn digit(n: usize) -> u8
    requires { n ≤ 9 }
    ensures { result ≡ 48 + n }
{
    b'0' + (n % 10) as u8
}

pub fn put_decimal(out: &mut [u8], at: usize, n: usize) -> usize
    requires { Number n at out.old }
    ensures { Written (decimal n) at out.old out.new result }
{
    let units = digit(n % 10);
    if n < 10 {
        put_text(out, at, &[units])
    } else if n < 100 {
        put_text(out, at, &[digit(n / 10), units])
    } else {
        put_text(out, at, &[digit(n / 100), digit(n / 10 % 10), units])
    }
}

// A number and a space.
pub fn put_field(out: &mut [u8], at: usize, n: usize) -> usize
    requires { Number n at out.old }
    ensures { Written (field n) at out.old out.new result }
{
    let next = put_decimal(out, at, n);
    put_text(out, next, b" ")
}
