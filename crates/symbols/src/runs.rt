// Runs of bits and of octets to labels and back, one place of every label at a time.
ghost use Rattle.std.specs.Prelude.{◌≡◌, length, replicate};
ghost use Rattle.symbols.specs.Labels.{labels_of, bits_of_labels, labels_of_octets, octets_of_labels};
ghost use Rattle.symbols.specs.Needs.{Shared, Labelling, Areas};

use crate::places::{first_bit, put_place, stride, take_place};

// The labels of a run of bits.
fn label_bits(modulation: usize, leftward: bool, run: &[u8], labels: &mut [u8])
    requires { Labelling modulation run.now labels.old }
    ensures { labels.new ≡ labels_of modulation (length labels.old) leftward run.now }
{
    let step = stride(modulation);
    labels.fill(0);
    for place in 0..modulation {
        let start = first_bit(modulation, labels.len(), leftward, place);
        take_place(run, start, step, labels);
    }
}

// The bits of labels.
fn unlabel_bits(modulation: usize, leftward: bool, labels: &[u8], run: &mut [u8])
    requires { Shared modulation run.old labels.now }
    ensures { run.new ≡ bits_of_labels modulation (length labels.now) leftward labels.now }
{
    let step = stride(modulation);
    for place in 0..modulation {
        let start = first_bit(modulation, labels.len(), leftward, place);
        put_place(labels, modulation - 1 - place, start, step, run);
    }
}

// The labels of octets; BITS is how many bits they have, which stand in an area of this call.
pub fn label_octets<const BITS: usize>(
    modulation: usize,
    leftward: bool,
    octets: &[u8],
    labels: &mut [u8],
)
    requires { Areas modulation octets.now (replicate BITS 0) labels.old }
    ensures { labels.new ≡ labels_of_octets modulation (length labels.old) leftward octets.now }
{
    let mut run = [0u8; BITS];
    bits::expand(octets, &mut run);
    label_bits(modulation, leftward, &run, labels);
}

// The octets of labels; BITS is how many bits they have, which stand in an area of this call.
pub fn unlabel_octets<const BITS: usize>(
    modulation: usize,
    leftward: bool,
    labels: &[u8],
    octets: &mut [u8],
)
    requires { Areas modulation octets.old (replicate BITS 0) labels.now }
    ensures { octets.new ≡ octets_of_labels (length octets.old) modulation (length labels.now) leftward labels.now }
{
    let mut run = [0u8; BITS];
    unlabel_bits(modulation, leftward, labels, &mut run);
    bits::collect(&run, octets);
}
