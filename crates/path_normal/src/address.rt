//! An address as four decimal numbers, without memory.
ghost use Rattle.std.specs.Prelude.{◌≡◌, ◌≤◌, ◌<◌, ◌+◌, ◌++◌, ◌∷◌, []};

/// The bytes of an address as four decimal numbers with periods between them, one by one.
#[derive(Clone, Copy, Debug, Drop)]
pub struct AddressBytes {
    bytes: [u8; 15],
    at: usize,
    end: usize,
    ghost begun: { at ≤ end },
    ghost within: { end ≤ 15 },
}

impl AddressBytes {
    ghost use Rattle.path_normal.specs.Address.{address_left, written};
    ghost use Rattle.path_normal.specs.Variables.{decimal, dotted};

    /// The bytes of this address.
    pub(crate) fn of(ip: u32) -> AddressBytes
        ensures { address_left result ≡ dotted ip }
    {
        let mut text = AddressBytes {
            bytes: [0; 15],
            at: 0,
            end: 0,
        };
        text.push_number(ip / 0x100_0000 % 0x100);
        text.push(b'.');
        text.push_number(ip / 0x1_0000 % 0x100);
        text.push(b'.');
        text.push_number(ip / 0x100 % 0x100);
        text.push(b'.');
        text.push_number(ip % 0x100);
        text
    }

    fn push_number(&mut self, number: u32)
        requires small { number < 256 }
        requires fits { self.old.end + 3 ≤ 15 }
        ensures text { written self.new ≡ written self.old ++ decimal number }
        ensures end { self.new.end ≤ self.old.end + 3 }
        ensures at { self.new.at ≡ self.old.at }
    {
        if number >= 100 {
            self.push_digit(number / 100);
        }
        if number >= 10 {
            self.push_digit(number / 10 % 10);
        }
        self.push_digit(number % 10);
    }

    fn push_digit(&mut self, digit: u32)
        requires small { digit < 10 }
        requires fits { self.old.end < 15 }
        ensures text { written self.new ≡ written self.old ++ (48 + digit) ∷ [] }
        ensures end { self.new.end ≡ self.old.end + 1 }
        ensures at { self.new.at ≡ self.old.at }
    {
        self.push(b'0' + digit as u8);
    }

    fn push(&mut self, byte: u8)
        requires { self.old.end < 15 }
        ensures text { written self.new ≡ written self.old ++ byte ∷ [] }
        ensures end { self.new.end ≡ self.old.end + 1 }
        ensures at { self.new.at ≡ self.old.at }
    {
        self.bytes[self.end] = byte;
        self.end += 1;
    }
}

impl Iterator for AddressBytes {
    ghost use Rattle.std.specs.Iterator.{YieldsFirst, item_count};
    ghost use Rattle.path_normal.specs.Address.{address_left};

    type Item = u8;

    ghost next_gives = { YieldsFirst address_left };

    ghost remaining = { item_count address_left };

    fn next(&mut self) -> Option<u8> {
        if self.at == self.end {
            return None;
        }
        let byte = self.bytes[self.at];
        self.at += 1;
        Some(byte)
    }
}
