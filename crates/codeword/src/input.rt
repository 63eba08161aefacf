// The parity input of a codeword.
ghost use Rattle.std.specs.Prelude.{◌≡◌};
ghost use Rattle.codeword.specs.Words.{parity_input};
ghost use Rattle.codeword.specs.Needs.{Input};

use crate::Shape;

// The bits before the parity as sent, with the zeros before and behind them that are not sent.
pub fn put_input(shape: Shape, run: &[u8], input: &mut [u8])
    requires { Input shape run.now input.old }
    ensures { input.new ≡ parity_input shape run.now }
{
    let (before, rest) = input.split_at_mut(shape.before);
    let (sent, behind) = rest.split_at_mut(run.len());
    before.fill(0);
    bits::copy(run, sent);
    behind.fill(0);
}
