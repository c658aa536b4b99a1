// Numbers and parts of a stored record's body, least significant byte first, read one after the other. For the program `vectors` and the crates beside it.
#![tactic(auto)]

ghost use Rattle.std.specs.Prelude.{◌≡◌, ℕ, List, drop};
ghost use Rattle.std.specs.Int.{w16, w32, w64, from_le_bytes, cast_signed};
ghost use Rattle.vector_bytes.specs.Body.{padded, part, first_byte};

// What is left of a body. It answers everywhere: past the end stand zeros, and a part that is not there is empty.
#[derive(Clone, Copy)]
pub struct Body<'a> {
    pub left: &'a [u8],
}

impl<'a> Body<'a> {
    // The next N bytes. Where they are all there they are copied as an array, whose length is known: a number is then one load.
    #[inline(always)]
    fn bytes<const N: usize>(&mut self) -> [u8; N]
        ensures value { result ≡ padded N self.old.left.now }
        ensures left { self.new.left.now ≡ drop N self.old.left.now }
    {
        if let Some((head, left)) = self.left.split_first_chunk::<N>() {
            self.left = left;
            return *head;
        }
        let mut bytes = [0u8; N];
        let n = N.min(self.left.len());
        let (head, left) = self.left.split_at(n);
        bytes[..n].copy_from_slice(head);
        self.left = left;
        bytes
    }

    // The next number.
    #[inline(always)]
    pub fn read<T: Number>(&mut self) -> T
        ensures value { result ≡ T.of_bytes (padded T.size self.old.left.now) }
        ensures left { self.new.left.now ≡ drop T.size self.old.left.now }
    {
        T::read(self)
    }

    // The next n bytes.
    pub fn part(&mut self, n: usize) -> &'a [u8]
        ensures value { result.now ≡ part n self.old.left.now }
        ensures left { self.new.left.now ≡ drop n self.old.left.now }
    {
        let part = self.left.get(..n).unwrap_or(&[]);
        self.left = self.left.get(n..).unwrap_or(&[]);
        part
    }
}

// A number that so many bytes stand for.
pub trait Number: Copy {
    ghost size: { ℕ };

    ghost of_bytes: { List ℕ → Self };

    fn read(body: &mut Body<'_>) -> Self
        ensures value { result ≡ of_bytes (padded size body.old.left.now) }
        ensures left { body.new.left.now ≡ drop size body.old.left.now };
}

impl Number for u8 {
    ghost size = { 1 };

    ghost of_bytes = { first_byte };

    #[inline(always)]
    fn read(body: &mut Body<'_>) -> u8 {
        let [byte] = body.bytes::<1>();
        byte
    }
}

impl Number for u16 {
    ghost size = { 2 };

    ghost of_bytes = { from_le_bytes w16 };

    #[inline(always)]
    fn read(body: &mut Body<'_>) -> u16 {
        u16::from_le_bytes(body.bytes::<2>())
    }
}

impl Number for u32 {
    ghost size = { 4 };

    ghost of_bytes = { from_le_bytes w32 };

    #[inline(always)]
    fn read(body: &mut Body<'_>) -> u32 {
        u32::from_le_bytes(body.bytes::<4>())
    }
}

impl Number for u64 {
    ghost size = { 8 };

    ghost of_bytes = { from_le_bytes w64 };

    #[inline(always)]
    fn read(body: &mut Body<'_>) -> u64 {
        u64::from_le_bytes(body.bytes::<8>())
    }
}

impl Number for i64 {
    ghost size = { 8 };

    ghost of_bytes = { λ bytes. cast_signed w64 (from_le_bytes w64 bytes) };

    #[inline(always)]
    fn read(body: &mut Body<'_>) -> i64 {
        i64::from_le_bytes(body.bytes::<8>())
    }
}
