// Numbers in decimal.
ghost use Rattle.std.specs.Prelude.{ℕ, ◌≡◌, ◌+◌, ◌≤◌, length};
ghost use Rattle.text.specs.Decimal.{width_of, decimal};
ghost use Rattle.text.specs.Put.{PutAt};

// A number that a line has in decimal.
pub trait Decimal: Copy {
    ghost number: { Self → ℕ };

    // How many digits it has.
    fn width(self) -> usize
        ensures { result ≡ width_of (number self) };

    // Its digits from a place on, and the place after them. The caller has seen that there is room.
    fn put(self, out: &mut [u8], at: usize) -> usize
        requires { at + length (decimal (number self)) ≤ length out.old }
        ensures { PutAt out.old at (decimal (number self)) result out.new };
}

impl Decimal for u64 {
    ghost number = { λ n. n };

    // Most numbers of a line have one digit, which is seen without a logarithm; 0, which has no logarithm, is the last arm's.
    fn width(self) -> usize {
        if 0 < self && self < 10 {
            return 1;
        }
        match self.checked_ilog10() {
            Some(last) => last as usize + 1,
            None => 1,
        }
    }

    // From the last digit to the first.
    fn put(self, out: &mut [u8], at: usize) -> usize {
        let end = at + self.width();
        let mut left = self;
        for i in (at..end).rev() {
            out[i] = b'0' + (left % 10) as u8;
            left /= 10;
        }
        end
    }
}

// A byte has at most three digits, and is put with no loop: a message has thousands of them.
impl Decimal for u8 {
    ghost number = { λ n. n };

    fn width(self) -> usize {
        match self {
            0..=9 => 1,
            10..=99 => 2,
            _ => 3,
        }
    }

    fn put(self, out: &mut [u8], at: usize) -> usize {
        if self < 10 {
            out[at] = b'0' + self;
            return at + 1;
        }
        if self < 100 {
            out[at] = b'0' + self / 10;
            out[at + 1] = b'0' + self % 10;
            return at + 2;
        }
        out[at] = b'0' + self / 100;
        out[at + 1] = b'0' + self / 10 % 10;
        out[at + 2] = b'0' + self % 10;
        at + 3
    }
}
