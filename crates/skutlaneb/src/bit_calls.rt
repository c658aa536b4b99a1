// Bits in and out, sign extension.
ghost use Rattle.std.specs.Prelude.{◌≡◌};
ghost use Rattle.bits.specs.Read.{read_rule};
ghost use Rattle.bits.specs.Write.{write_rule, written};
ghost use Rattle.signed.specs.Extend.{extend_rule};
ghost use Rattle.answers.specs.Answer.{of_piece, of_place, of_signed};

use answers::Answer;
use bits::Place;

// Gives the bits as a number, and the byte and the bit of the place after them.
#[unsafe(no_mangle)]
pub extern "C" fn skut_read_bits(s: &[u8], byte: usize, bit: u8, width: u8) -> Answer
    ensures { result ≡ of_piece (read_rule s.now (record { byte = byte; bit = bit }) width) }
{
    let at = Place {
        byte: byte,
        bit: bit,
    };
    Answer::from(bits::read_bits(s, at, width))
}

// Gives the byte and the bit of the place after the bits.
#[unsafe(no_mangle)]
pub extern "C" fn skut_write_bits(
    buf: &mut [u8],
    byte: usize,
    bit: u8,
    value: u64,
    width: u8,
) -> Answer
    ensures answer { result ≡ of_place (write_rule buf.old (record { byte = byte; bit = bit }) width) }
    ensures buf { buf.new ≡ written buf.old (record { byte = byte; bit = bit }) value width }
{
    let at = Place {
        byte: byte,
        bit: bit,
    };
    Answer::from(bits::write_bits(buf, at, value, width))
}

// Gives the signed number by its 64 bits.
#[unsafe(no_mangle)]
pub extern "C" fn skut_sign_extend(val: u32, bits: u8) -> Answer
    ensures { result ≡ of_signed (extend_rule val bits) }
{
    Answer::from(signed::sign_extend(val, bits))
}
