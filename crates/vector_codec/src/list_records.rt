// Records of lists that are encoded: E and Y.
use encoder::Refusal;
use vector_bodies::digest::image_so;
use vector_bodies::lists::{LISTED, MOST, make, rule_of};
use vector_bytes::Body;
use vector_lists::{first, read_pairs};
use vector_outcomes::{brief_so, read_so};
use vector_tally::{Question, Tally};

// Bytes that hold the image of every list that a rule makes: 36 bits a code.
// Stays: there is no heap, so lists and images stand in arrays of the most that they may have, here and in the crates beside this one.
const ROOM: usize = 147520;

// The image that was written, which is empty where refusal 20 says that the list does not read back; of another refusal none.
fn image_of(written: Result<usize, Refusal>, out: &[u8]) -> Option<&[u8]> {
    match written {
        Ok(n) => out.get(..n),
        Err(Refusal::Wide(_, _)) => Some(&[]),
        Err(_) => None,
    }
}

pub fn listed(mut body: Body<'_>, tally: &mut Tally) {
    let n = usize::from(body.read::<u8>());
    let same = body.read::<u8>() == 1;
    let listed = body;
    let mut seqs = [0u64; LISTED];
    let mut secs = [0i64; LISTED];
    read_pairs(&mut body, n, &mut seqs, &mut secs);
    let seqs = first(&seqs, n);
    let secs = first(&secs, n);
    let want = body.left;
    let mut out = [255u8; 4096];
    let written = encoder::encode(seqs, secs, &mut out);
    let sized = encoder::encoded_len(seqs, secs).is_ok_and(|len| len == want.len());
    tally.note(
        Question::Encodings,
        sized & (image_of(written, &out) == Some(want)),
    );
    let mut strict = [255u8; 4096];
    let firm = encoder::encode_strict(seqs, secs, &mut strict);
    let kept: &[u8] = if same { want } else { &[] };
    let back = read_so(want, n, listed);
    tally.note(
        Question::Readbacks,
        (image_of(firm, &strict) == Some(kept)) & (back == same),
    );
}

pub fn ruled(mut body: Body<'_>, tally: &mut Tally) {
    let rule = rule_of(&mut body);
    let same = body.read::<u8>() != 0;
    let imaged = body;
    body.part(12);
    let mut seqs = [0u64; MOST];
    let mut secs = [0i64; MOST];
    make(rule, &mut seqs, &mut secs);
    let seqs = first(&seqs, rule.count);
    let secs = first(&secs, rule.count);
    let mut out = [0u8; ROOM];
    let written = encoder::encode(seqs, secs, &mut out);
    let image = image_of(written, &out).unwrap_or(&[]);
    tally.note(Question::Encodings, image_so(imaged, image));
    tally.note(Question::Decodings, brief_so(image, seqs.len(), body));
    let mut strict = [0u8; ROOM];
    let firm = encoder::encode_strict(seqs, secs, &mut strict);
    let agreed = image_of(firm, &strict).is_some_and(|image| {
        if same {
            image_so(imaged, image)
        } else {
            image.is_empty()
        }
    });
    tally.note(Question::Readbacks, agreed);
}
