// The digest of FORMAT.md, of an image and of pairs.
ghost use Rattle.std.specs.Prelude.{◌≡◌, ℕ, bit_xor};
ghost use Rattle.std.specs.Int.{w64, cast_unsigned};
ghost use Rattle.std.specs.List.{fold, zip};
ghost use Rattle.vector_bodies.specs.Digest.{mix};

use vector_bytes::Body;

// What a digest is made of: a byte or a number, by its bits.
trait Bits: Copy {
    ghost bits: { Self → ℕ };

    fn bits(self) -> u64
        ensures { result ≡ bits self };
}

impl Bits for u8 {
    ghost bits = { λ x. x };

    fn bits(self) -> u64 {
        u64::from(self)
    }
}

impl Bits for u64 {
    ghost bits = { λ x. x };

    fn bits(self) -> u64 {
        self
    }
}

impl Bits for i64 {
    ghost bits = { cast_unsigned w64 };

    fn bits(self) -> u64 {
        self.cast_unsigned()
    }
}

// A step of xorshift on 64 bits.
pub fn mix(x: u64) -> u64
    ensures { result ≡ mix x }
{
    let a = x ^ (x << 13);
    let b = a ^ (a >> 7);
    b ^ (b << 17)
}

const START: u64 = 88172645463325252;

fn digest<T: Bits>(values: &[T]) -> u64
    ensures { result ≡ fold (λ d x. mix (bit_xor d (T.bits x))) START values.now }
{
    values.iter().fold(START, |d, x| mix(d ^ x.bits()))
}

// Whether an image has the length and the digest that a body goes on with.
pub fn image_so(mut body: Body<'_>, image: &[u8]) -> bool {
    let length: u32 = body.read();
    (image.len() == length as usize) & (digest(image) == body.read())
}

// The digests of the sequences and of the seconds of pairs, made beside each other: a step waits for the one before it in its own digest alone.
fn digests(seqs: &[u64], secs: &[i64]) -> (u64, u64)
    ensures { result ≡ fold (λ d p. (mix (bit_xor d.0 p.0), mix (bit_xor d.1 (cast_unsigned w64 p.1)))) (START, START) (zip seqs.now secs.now) }
{
    seqs.iter()
        .zip(secs)
        .fold((START, START), |(d, e), (x, y)| {
            (mix(d ^ x.bits()), mix(e ^ y.bits()))
        })
}

// Whether pairs, in two lists of one length, have the digests that a body goes on with: of the sequences, then of the seconds.
pub fn pairs_so(mut body: Body<'_>, seqs: &[u64], secs: &[i64]) -> bool {
    let (d, e) = digests(seqs, secs);
    (d == body.read()) & (e == body.read())
}
