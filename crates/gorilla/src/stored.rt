// What an array's values are to the stored form, which has signed numbers of 64 bits.
ghost use Rattle.std.specs.Prelude.{◌≡◌, refl, ℤ};
ghost use Rattle.std.specs.Int.{w64};
ghost use Rattle.std.proofs.Common.{SFits};
ghost use Rattle.signed.specs.Signed.{signed, pattern};
ghost use Rattle.signed.proofs.Wrapping.{signed-pattern};

pub trait Stored: Copy {
    // the number that a value is stored as, and the value that is stored as a number
    ghost as_z: { Self → ℤ };

    ghost of_z: { ℤ → Self };

    fn to_signed(self) -> i64
        ensures { result ≡ as_z self };

    fn from_signed(z: i64) -> Self
        ensures { result ≡ of_z z };

    // what is stored as a number is that number
    ghost back: { (z : ℤ) → SFits w64 z → as_z (of_z z) ≡ z };
}

// A sequence is stored by its bit pattern.
impl Stored for u64 {
    ghost as_z = { signed };

    ghost of_z = { pattern };

    ghost back = { signed-pattern };

    fn to_signed(self) -> i64 {
        signed::as_signed(self)
    }

    fn from_signed(z: i64) -> u64 {
        signed::as_unsigned(z)
    }
}

// A second is stored as it is.
impl Stored for i64 {
    ghost as_z = { λ z. z };

    ghost of_z = { λ z. z };

    ghost back = { λ z f. refl };

    fn to_signed(self) -> i64 {
        self
    }

    fn from_signed(z: i64) -> i64 {
        z
    }
}
