// The number of the layout of the structs that cross, in a function's name. The header and the Rust crate name the function, so that a
// program of theirs does not link with a library whose structs are laid out otherwise; it would take one number for another there, and no
// refusal would say why. The number goes up with each change of a struct that crosses.
#[unsafe(no_mangle)]
pub extern "C" fn skut_layout_4() {}
