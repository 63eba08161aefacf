// The register eight steps on, at once. Whether a register shares an odd number of ones with a mask is linear in both, so
// the feedback some steps on is that of the register as it stands with another mask.
ghost use Rattle.std.specs.Prelude.{◌≡◌, ◌+◌, ◌-◌, ◌*◌, ◌/◌, ◌%◌, ◌^◌, ◌≤◌, ◌<◌, length};
ghost use Rattle.bits.specs.Digits.{digits};
ghost use Rattle.bits.specs.Sums.{added};
ghost use Rattle.dispersal.specs.Dispersal.{dispersed};
ghost use Rattle.dispersal.specs.Eights.{masks_of};
ghost use Rattle.dispersal.specs.Needs.{Room};
ghost use Rattle.dispersal.specs.Register.{after};

// Makes the masks of eight feedback bits: each is the one before it, drawn back by a step.
fn fill_masks(width: u32, mask: u32, masks: &mut [u32])
    requires { Room width masks.old }
    ensures { masks.new ≡ masks_of width mask }
{
    let taps = mask % (1u32 << width);
    let mut next = taps;
    for place in masks.iter_mut() {
        *place = next;
        next = (next >> 1) ^ (next % 2 * taps);
    }
}

// One of eight bits, the first being the highest. As a u64, since sums of octets take longer here.
fn bit_of(eight: u32, k: usize) -> u64
    requires { k < 8 }
    ensures { result ≡ eight / 2 ^ (7 - k) % 2 }
{
    u64::from(eight & (128u32 >> k) != 0)
}

// The settings of a register that has eight bits to give out, and the masks of its next eight feedback bits.
#[derive(Clone, Copy)]
pub struct EightSteps {
    pub width: u32,
    pub mask: u32,
    masks: [u32; 8],
    ghost low: { 8 ≤ width },
    ghost high: { width ≤ 25 },
    ghost made: { masks ≡ masks_of width mask },
}

impl EightSteps {
    pub fn new(width: u32, mask: u32) -> Self
        requires low { 8 ≤ width }
        requires high { width ≤ 25 }
        ensures width { result.width ≡ width }
        ensures mask { result.mask ≡ mask }
    {
        let mut masks = [0u32; 8];
        fill_masks(width, mask, &mut masks);
        EightSteps { width, mask, masks }
    }

    // The register eight steps on: it shifts up eight places, and the feedback of eight steps is fed in.
    fn jump(&self, register: u32) -> u32
        requires { register < 2 ^ self.now.width }
        ensures { result ≡ after self.now.width self.now.mask register 8 }
    {
        let mut fed: u32 = 0;
        for mask in &self.masks {
            fed = (fed << 1) | ((register & *mask).count_ones() % 2);
        }
        let low = (1u32 << self.width) - 1;
        ((register << 8) | fed) & low
    }

    // Adds the register's top eight bits to a run of eight: they are what the next eight steps give out.
    fn add_tops(&self, register: u32, run: &mut [u8])
        requires { length run.old ≡ 8 }
        ensures { run.new ≡ added run.old (digits 8 (register / 2 ^ (self.now.width - 8))) }
    {
        let eight = register >> (self.width - 8);
        for (k, bit) in run.iter_mut().enumerate() {
            *bit = ((u64::from(*bit) + bit_of(eight, k)) % 2) as u8;
        }
    }

    // Disperses a run of whole eights, eight bits at a time: parts by index, since of chunks_exact_mut a proof knows the length
    // alone.
    pub fn disperse_eights(&self, register: u32, run: &mut [u8]) -> u32
        requires register { register < 2 ^ self.now.width }
        requires run { length run.old % 8 ≡ 0 }
        ensures value { result ≡ after self.now.width self.now.mask register (length run.old) }
        ensures run_after { run.new ≡ dispersed self.now.width self.now.mask register run.old }
    {
        let mut held = register;
        for i in 0..run.len() / 8 {
            self.add_tops(held, &mut run[8 * i..8 * i + 8]);
            held = self.jump(held);
        }
        held
    }
}
