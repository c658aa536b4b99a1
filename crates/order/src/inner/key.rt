// What a table is ordered by: a sequence, which is a number, or a second, which is a signed one.
ghost use Rattle.std.specs.Prelude.{◌≡◌, Bool, ltb, pos};
ghost use Rattle.std.specs.Int.Signed.{lt_z};
ghost use Rattle.order.specs.Inner.{Order, nat_order, int_order};

pub trait Key: Copy {
    // the order test, and what a key past the end would be
    ghost lt: { Self → Self → Bool };

    ghost zero: { Self };

    fn below(self, other: Self) -> bool
        ensures { result ≡ lt self other };

    ghost order: { Order lt };
}

impl Key for u64 {
    ghost lt = { ltb };

    ghost zero = { 0 };

    ghost order = { nat_order };

    fn below(self, other: u64) -> bool {
        self < other
    }
}

impl Key for i64 {
    ghost lt = { lt_z };

    ghost zero = { pos 0 };

    ghost order = { int_order };

    fn below(self, other: i64) -> bool {
        self < other
    }
}
