//! Which of a desk's ports have to be looked at (`docs/model.md`, "The desk").

ghost use Rattle.std.specs.Prelude.{◌≡◌, ◌+◌, ◌<◌, ◌≤◌, ℕ};
ghost use Rattle.std.specs.Int.{bit_at};
ghost use Rattle.fe_desk.specs.within.Desk.{port_bit};

/// How many bits a word has.
const BITS: usize = 64;

/// How many words a set has.
const WORDS: usize = 16;

/// A set of ports, by their indexes, that takes a fixed amount of memory: a bit for each index. Indexes that
/// leave the same remainder when divided by the number of bits share one.
#[derive(Drop)]
pub(crate) struct PortSet {
    words: [u64; WORDS],
}

impl PortSet {
    /// The empty set.
    pub(crate) fn new() -> PortSet {
        PortSet { words: [0; WORDS] }
    }

    /// Adds a port.
    pub(crate) fn add(&mut self, at: usize)
        ensures added { port_bit self.new at ≡ 1 }
        ensures still { (other : ℕ) → port_bit self.old other ≡ 1 → port_bit self.new other ≡ 1 }
    {
        self.words[at / BITS % WORDS] |= 1u64 << (at % BITS);
    }

    /// Adds the ports of another set.
    pub(crate) fn add_each(&mut self, others: &PortSet)
        ensures added { (at : ℕ) → port_bit others.now at ≡ 1 → port_bit self.new at ≡ 1 }
        ensures still { (at : ℕ) → port_bit self.old at ≡ 1 → port_bit self.new at ≡ 1 }
    {
        for k in 0..WORDS {
            self.words[k] |= others.words[k];
        }
    }

    /// Adds all ports.
    pub(crate) fn add_all(&mut self)
        ensures { (at : ℕ) → port_bit self.new at ≡ 1 }
    {
        self.words = [u64::MAX; WORDS];
    }

    /// The first index from `from` on that the set has, or `end` if none is below it.
    pub(crate) fn next(&self, from: usize, end: usize) -> usize
        requires { from ≤ end }
        ensures reached { from ≤ result }
        ensures within { result ≤ end }
        ensures passed { (at : ℕ) → from ≤ at → at < result → port_bit self.now at ≡ 0 }
    {
        let mut at = from;
        while at < end {
            let bit = at % BITS;
            let zeros = zeros_from(self.words[at / BITS % WORDS], bit);
            if end - at <= zeros {
                return end;
            }
            at += zeros;
            if bit + zeros < BITS {
                return at;
            }
        }
        at
    }
}

/// How many bits of a word, from one on, come before its first 1, or before its end.
fn zeros_from(word: u64, bit: usize) -> usize
    requires { bit < 64 }
    ensures within { bit + result ≤ 64 }
    ensures zeros { (i : ℕ) → bit ≤ i → i < bit + result → bit_at word i ≡ 0 }
{
    let rest = word >> bit;
    if rest == 0 {
        return BITS - bit;
    }
    rest.trailing_zeros() as usize
}
