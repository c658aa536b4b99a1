// The image: version 1, the pair count, the sequences, the seconds.
ghost use Rattle.std.specs.Prelude.{◌≡◌, ◌∷◌, ◌≤◌, length};
ghost use Rattle.std.proofs.lemmas.List.Edits.{sets};
ghost use Rattle.told.specs.Over.{over};
ghost use Rattle.gorilla.specs.Format.{le_bytes, image_bytes};

use array_writer::inner::write_array;

// The version, and the pair count in four bytes, the least significant first.
fn write_header(out: &mut [u8], count: usize)
    requires { 5 ≤ length out.old }
    ensures { out.new ≡ sets out.old 0 (1 ∷ le_bytes 4 count) }
{
    out[0] = 1;
    out[1..5].copy_from_slice(&count.to_le_bytes()[..4]);
}

// The image, into a buffer that holds it, and its length.
pub fn write_image(seqs: &[u64], secs: &[i64], out: &mut [u8]) -> usize
    requires { length (image_bytes seqs.now secs.now) ≤ length out.old }
    ensures bytes { result ≡ length (image_bytes seqs.now secs.now) }
    ensures out { out.new ≡ over (image_bytes seqs.now secs.now) out.old }
{
    write_header(out, seqs.len());
    let end = write_array(out, 5, seqs);
    write_array(out, end, secs)
}
