// The steps. Each asks what its caller has tested.
//
// Stays: no plainer. `from` and `first` of take_bits and put_bits are a `Place` of the crate bits, whose bit may be above 7: here it
// would need the clause that it is not, as well.
ghost use Rattle.std.specs.Prelude.{◌≡◌, ◌+◌, ◌*◌, ◌-◌, ◌/◌, ◌%◌, ◌^◌, ◌≤◌, ◌<◌, min, length};
ghost use Rattle.raw_bits.specs.Inner.{bits_at, put_bits};

// The `t` bits of `x` above its `low` lowest.
pub fn field(x: u64, low: u8, t: u8) -> u64
    requires { (low < 64) × (t < 64) }
    ensures { result ≡ x / 2 ^ low % 2 ^ t }
{
    (x >> low) & ((1u64 << t) - 1)
}

// Eight bytes as one number, the first the most significant: one load.
pub fn word_at(s: &[u8], i: usize) -> u64
    requires { i + 8 ≤ length s.now }
    ensures { result ≡ bits_at s.now (i * 8) 64 }
{
    u64::from_be_bytes([
        s[i],
        s[i + 1],
        s[i + 2],
        s[i + 3],
        s[i + 4],
        s[i + 5],
        s[i + 6],
        s[i + 7],
    ])
}

// `width` bits as a number: of each byte as many as it still has.
pub fn take_bits(s: &[u8], from: usize, first: u8, width: u8) -> u64
    requires { (first < 8) × (width ≤ 64) × (from * 8 + first + width ≤ length s.now * 8) }
    ensures { result ≡ bits_at s.now (from * 8 + first) width }
{
    let mut byte = from;
    let mut bit = first;
    let mut v: u64 = 0;
    let mut k: u8 = 0;
    // Stays: no plainer as a `for`: a turn goes on by as many bits as the byte still has, and the last by those that are asked.
    while k < width {
        let t = (8 - bit).min(width - k);
        v = (v << t) + field(u64::from(s[byte]), 8 - (bit + t), t);
        byte += usize::from((bit + t) / 8);
        bit = (bit + t) % 8;
        k += t;
    }
    v
}

// The byte `x` with the `t` bits of `chunk` from `bit` on: the bits before them stay, those after become 0.
fn merge(x: u8, bit: u8, t: u8, chunk: u64) -> u8
    requires { (bit + t ≤ 8) × (chunk < 2 ^ t) }
    ensures { result ≡ x / 2 ^ (8 - bit) * 2 ^ (8 - bit) + chunk * 2 ^ (8 - (bit + t)) }
{
    let room = 8 - bit;
    (((u64::from(x) >> room) << room) + (chunk << (8 - (bit + t)))) as u8
}

// The low `width` bits of a value: the first byte, the whole bytes, the last byte.
pub fn put_bits(buf: &mut [u8], from: usize, first: u8, value: u64, width: u8)
    requires { (first < 8) × (width ≤ 64) × (from * 8 + first + width ≤ length buf.old * 8) }
    ensures { buf.new ≡ put_bits buf.old (from * 8 + first) value width }
{
    let t = (8 - first).min(width);
    if t == 0 {
        return;
    }
    let x = merge(buf[from], first, t, field(value, width - t, t));
    buf[from] = x;
    let mut byte = from + 1;
    let mut left = width - t;
    // Stays: no plainer as a `for`: `left` falls by eight while `byte` grows by one, and the last byte takes what `left` then is.
    while 8 <= left {
        left -= 8;
        let y = merge(0, 0, 8, field(value, left, 8));
        buf[byte] = y;
        byte += 1;
    }
    if 0 < left {
        let z = merge(0, 0, left, field(value, 0, left));
        buf[byte] = z;
    }
}
