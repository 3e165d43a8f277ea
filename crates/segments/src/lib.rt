// Which of the up to 69 segments of a message are in (02, E6).
#![tactic(auto)]

ghost use Rattle.std.specs.Prelude.{◌≡◌, ◌≤◌, MatchOption};
ghost use Rattle.segments.specs.Laws.{Gap, NoneFrom};
ghost use Rattle.segments.specs.Model.{is_in, none_in, put_in, missing_of, first_missing, run_of, agrees};

// Segment n is bit n - 1 of low for n up to 64, and bit n - 65 of high for 65 to 69. Plain numbers, so that an enum can hold them.
#[derive(Clone, Copy, PartialEq, Eq)]
pub struct Segments {
    pub low: u64,
    pub high: u8,
}

impl Segments {
    // Nothing is in.
    pub fn none() -> Segments
        ensures { result ≡ none_in }
    {
        Segments { low: 0, high: 0 }
    }

    // Whether segment n is in: of 0 and of a number past 69 false.
    #[tactic(auto, using(crate::proofs::Parts::in_zero, crate::specs::Laws::in_past_69))]
    pub fn is_in(self, n: u32) -> bool
        ensures { result ≡ is_in self n }
    {
        match n {
            1..=64 => (self.low >> (n - 1)) % 2 == 1,
            65..=69 => (self.high >> (n - 65)) % 2 == 1,
            _ => false,
        }
    }

    // The record with segment n in: unchanged where n is in already, or is no segment's number.
    pub fn put(self, n: u32) -> Segments
        ensures { result ≡ put_in self n }
    {
        if self.is_in(n) {
            return self;
        }
        match n {
            1..=64 => Segments {
                low: self.low + (1 << (n - 1)),
                ..self
            },
            65..=69 => Segments {
                high: self.high + (1 << (n - 65)),
                ..self
            },
            _ => self,
        }
    }

    // How many of the segments 1 to count are not in.
    pub fn missing(self, count: u32) -> u32
        ensures { result ≡ missing_of self count }
    {
        if count < 64 {
            return count - (self.low % (1 << count)).count_ones();
        }
        let past = (count - 64).min(5);
        count - (self.low.count_ones() + (self.high % (1 << past)).count_ones())
    }

    // The state check: at most 69 segments, nothing in past them, and left of them missing.
    pub fn agree(self, count: u32, left: u32) -> bool
        ensures { result ≡ agrees self count left }
    {
        if count < 64 {
            // One test for both.
            if u64::from(self.high) | (self.low >> count) == 0 {
                return count - self.low.count_ones() == left;
            }
            return false;
        }
        if 69 < count || self.high >> (count - 64) != 0 {
            return false;
        }
        count - (self.low.count_ones() + self.high.count_ones()) == left
    }

    // The first of the segments 1 to count that is not in, count + 1 where all are.
    pub fn first_missing(self, count: u32) -> u32
        ensures { result ≡ first_missing self count }
    {
        let limit = count.min(69);
        let ones = self.low.trailing_ones();
        if ones < 64 {
            return ones.min(limit) + 1;
        }
        (64 + self.high.trailing_ones()).min(limit) + 1
    }

    // How many segments in a row are not in, from n on: None where no more are in.
    fn gap(self, n: u32) -> Option<u32>
        requires { 1 ≤ n }
        ensures { MatchOption result (NoneFrom self n) (Gap self n) }
    {
        if n <= 64 {
            let zeros = (self.low >> (n - 1)).trailing_zeros();
            if zeros < 64 {
                return Some(zeros);
            }
            let above = (self.high % 32).trailing_zeros();
            if above < 8 {
                return Some(65 - n + above);
            }
            return None;
        }
        if n <= 69 {
            let above = ((self.high % 32) >> (n - 65)).trailing_zeros();
            if above < 8 {
                return Some(above);
            }
        }
        None
    }

    // How many segments in a row are not in, from the number `from` on: at most `most` of them, and none past count.
    pub fn run(self, from: u32, count: u32, most: u8) -> u8
        ensures { result ≡ run_of self from count most }
    {
        if from == 0 || count < from {
            return 0;
        }
        let asked = u32::from(most).min(count - (from - 1));
        self.gap(from).map_or(asked, |gap| gap.min(asked)) as u8
    }
}
