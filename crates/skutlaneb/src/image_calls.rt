// Images of arrays, written and read.
ghost use Rattle.std.specs.Prelude.{◌≡◌};
ghost use Rattle.encoder.specs.Encode as encoding;
ghost use Rattle.decoder.specs.Decode as decoding;
ghost use Rattle.answers.specs.Answer.{of_count};
ghost use Rattle.skutlaneb.specs.Calls.{SkutEncodes};

use answers::Answer;

// Gives the bytes of the image.
#[unsafe(no_mangle)]
pub extern "C" fn skut_encoded_len(seqs: &[u64], secs: &[i64]) -> Answer
    ensures { result ≡ of_count (encoding.len_rule seqs.now secs.now) }
{
    Answer::from(encoder::encoded_len(seqs, secs))
}

// Gives the bytes written.
#[unsafe(no_mangle)]
pub extern "C" fn skut_encode(seqs: &[u64], secs: &[i64], out: &mut [u8]) -> Answer
    ensures { SkutEncodes encoding.encode_rule seqs.now secs.now out.old result out.new }
{
    Answer::from(encoder::encode(seqs, secs, out))
}

// Gives the bytes written.
#[unsafe(no_mangle)]
pub extern "C" fn skut_encode_strict(seqs: &[u64], secs: &[i64], out: &mut [u8]) -> Answer
    ensures { SkutEncodes encoding.strict_rule seqs.now secs.now out.old result out.new }
{
    Answer::from(encoder::encode_strict(seqs, secs, out))
}

// The list reader. Gives the pair count.
#[unsafe(no_mangle)]
pub extern "C" fn skut_decode(bytes: &[u8], seqs: &mut [u64], secs: &mut [i64]) -> Answer
    ensures answer { result ≡ of_count (decoding.decode_rule bytes.now seqs.old secs.old) }
    ensures seqs { seqs.new ≡ decoding.seqs_after bytes.now seqs.old secs.old }
    ensures secs { secs.new ≡ decoding.secs_after bytes.now seqs.old secs.old }
{
    Answer::from(decoder::decode(bytes, seqs, secs))
}

// Gives the image's length: what follows it starts there.
#[unsafe(no_mangle)]
pub extern "C" fn skut_image_len(bytes: &[u8]) -> Answer
    ensures { result ≡ of_count (decoding.image_len_rule bytes.now) }
{
    Answer::from(decoder::image_len(bytes))
}
