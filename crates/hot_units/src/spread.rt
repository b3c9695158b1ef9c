ghost use Rattle.std.specs.Prelude.{◌≡◌, ℕ, ◌<◌, ◌^◌, slice_index};
ghost use Rattle.hot_units.specs.Limits.{max_level};
ghost use Rattle.hot_units.specs.Spread.{spread};

/// A table of `N` entries that sets the bits of a number below `N` apart: entry `i` has bit `j` of
/// `i` at bit `3 * j`, for the eight lowest bits, and zeros elsewhere (a dilated integer: Raman and
/// Wise, 2008). Keys are made with the table of all bytes, which is of 256 entries.
#[derive(Clone, Copy)]
pub struct Spread<const N: usize> {
    entries: &'static [u32; N],
    ghost each: { (i : ℕ) → i < N → slice_index entries.now i ≡ spread 8 i },
}

/// The entries so far, and behind them each of them with a bit more; then so for the later bits.
macro_rules! doubled {
    ([$($entry:expr),*]) => { [$($entry),*] };
    ([$($entry:expr),*] $bit:literal $($later:literal)*) => {
        doubled!([$($entry,)* $($entry + $bit),*] $($later)*)
    };
}

impl<const N: usize> Spread<N> {
    /// The entry of a number below `N`. It takes no memory.
    #[inline]
    pub fn entry(self, number: u32) -> u32
        requires inside { number < N }
        ensures value { result ≡ spread 8 number }
    {
        self.entries[number as usize]
    }
}

impl Spread<256> {
    /// The table of all bytes. It takes no memory.
    #[inline]
    pub fn of_bytes() -> Self {
        static ENTRIES: [u32; 256] =
            doubled!([0] 0o1 0o10 0o100 0o1000 0o10000 0o100000 0o1000000 0o10000000);
        Spread { entries: &ENTRIES }
    }
}

/// The bits of a coordinate that are in its key set apart, byte by byte: bit `j` goes to bit
/// `3 * j`.
#[tactic(auto, using(crate::proofs::Spreads::on_bytes))]
#[inline]
pub fn spread_bits(bits: u32) -> u64
    requires { bits < 2 ^ max_level }
    ensures { result ≡ spread max_level bits }
{
    let bytes = Spread::of_bytes();
    let low = bytes.entry(bits % 256);
    let middle = bytes.entry((bits >> 8) % 256);
    let high = bytes.entry(bits >> 16);
    u64::from(low) + (u64::from(middle) << 24) + (u64::from(high) << 48)
}
