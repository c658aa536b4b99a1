#![tactic(auto)]

fn main(rt: HostRuntime) {
    let mut asked = [0u8; why_io::INPUT_ROOM];
    let mut text = [0u8; why_text::TEXT_ROOM];
    why_io::run(&rt, &mut asked, &mut text);
}
