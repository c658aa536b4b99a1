#![tactic(auto)]

fn main(rt: HostRuntime) {
    let mut input = [0u8; listing_io::INPUT_ROOM];
    let mut text = [0u8; report::TEXT_ROOM];
    listing_io::run_dates(&rt, &mut input, &mut text);
}
