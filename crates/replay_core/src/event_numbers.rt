//! The numbers of events in a report, each a little above the one before.
ghost use Rattle.std.specs.Fmt.{decimal};
ghost use Rattle.std.specs.Prelude.{◌≡◌, ◌++◌, ◌+◌, ◌/◌, ◌%◌, ◌^◌, ◌<◌, ◌≤◌, length, take};

use crate::put::{put, put_four, put_number};

/// The digits before the last four of a number that was written, which those after it mostly share.
#[derive(Drop)]
pub(crate) struct EventNumbers {
    // the first number that has these digits before its last four
    from: u64,
    // the digits, and then bytes of no meaning
    front: [u8; 8],
    len: usize,
    ghost some: { 10000 ≤ from },
    ghost few: { from < 10 ^ 12 },
    ghost whole: { from % 10000 ≡ 0 },
    ghost short: { len ≤ 8 },
    ghost digits: { take len front ≡ decimal (from / 10000) },
}

impl EventNumbers {
    /// Before any was written.
    pub(crate) fn new() -> EventNumbers {
        EventNumbers {
            from: 10_000,
            front: *b"1       ",
            len: 1,
        }
    }

    /// Writes a number in decimal, as `put_number`.
    pub(crate) fn put_next(&mut self, text: &mut [u8], at: usize, number: u64) -> usize
        requires { at + 20 ≤ length text.old }
        ensures end { result ≤ at + 20 }
        ensures text { take result text.new ≡ take at text.old ++ decimal number }
    {
        let last = number.wrapping_sub(self.from);
        if last < 10_000 {
            // a copy, so that the compiler moves it as one word; the last four digits come over what it has past the front's end
            let front = self.front;
            put(text, at, &front);
            return put_four(text, at + self.len, last as usize);
        }
        self.renew(number);
        put_number(text, at, number)
    }

    // Takes the front of a number that has another one, where that is neither empty nor too long.
    fn renew(&mut self, number: u64) {
        if number < 10_000 || number >= 1_000_000_000_000 {
            return;
        }
        let mut digits = [0; 20];
        let len = put_number(&mut digits, 0, number / 10_000);
        let mut front = [0; 8];
        put(&mut front, 0, &digits[..8]);
        *self = EventNumbers {
            from: number - number % 10_000,
            front,
            len,
        };
    }
}
