// Records of images that are read: D.
use vector_bytes::Body;
use vector_outcomes::{Told, measured_so, read_so, unread_so};
use vector_tally::{Question, Tally};

// Whether it is refused as told, or has the pairs that follow its length.
fn decoded_so(bytes: &[u8], told: Option<Told>, mut body: Body<'_>) -> bool {
    if told.is_some() {
        return unread_so(bytes, told, body);
    }
    body.part(2);
    let n = usize::from(body.read::<u16>());
    read_so(bytes, n, body)
}

pub fn image(mut body: Body<'_>, tally: &mut Tally) {
    let told = Told::read(&mut body);
    let over: u8 = body.read();
    let size = usize::from(body.read::<u16>());
    let bytes = body.part(size);
    let agreed = measured_so(bytes, told, body);
    if over == 0 {
        tally.note(Question::Lengths, agreed);
        tally.note(Question::Decodings, decoded_so(bytes, told, body));
    } else {
        // the list reader refuses with 10 and the array, which the Rust does not know; 10 tells no place, and none is looked for
        let many = Told {
            number: 10,
            tells: over - 1,
        };
        tally.note(
            Question::Lengths,
            agreed & unread_so(bytes, Some(many), body),
        );
    }
}
