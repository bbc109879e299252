// A text that grows in a lent buffer. No method is an entry point: each requires room for what it puts.
#![tactic(auto, using(crate::proofs::Writing::appending))]

ghost use Rattle.std.specs.Prelude.{◌≡◌, true, false, ℕ, List, [], ◌∷◌, ◌++◌, ◌+◌, ◌≤◌, ◌<◌, length};
ghost use Rattle.card.specs.Listing.{decimal};
ghost use Rattle.card.specs.inner.Room.{longest_field};
ghost use Rattle.card.specs.Text.{Appends, Covers};

use std::marker::Model;

#[derive(Drop)]
pub struct Text<'a> {
    bytes: &'a mut [u8],
    used: usize,
}

// A contract sees the bytes written, how many more fit, and the lent memory behind them.
impl<'a> Model for Text<'a> {
    ghost use Rattle.std.specs.Prelude.{◌-◌, ◌≤◌, length, take, drop};
    ghost use Rattle.card.specs.Text.{Written};

    ghost Value = { Written };

    ghost view = { λ t. record { bytes = take t.used t.bytes.now; room = length t.bytes.now - t.used; rest = drop t.used t.bytes.now; lent = t.bytes.ghost_name } };

    ghost invariant = { λ t. t.used ≤ length t.bytes.now };
}

impl<'a> Text<'a> {
    pub fn new(bytes: &'a mut [u8]) -> Self
        ensures { result ≡ record { bytes = []; room = length bytes.old; rest = bytes.old; lent = bytes.entry.ghost_name } }
    {
        Text { bytes, used: 0 }
    }

    // What is written.
    pub fn as_bytes(&self) -> &[u8]
        ensures { result.now ≡ self.now.bytes }
    {
        &self.bytes[..self.used]
    }

    // The lent memory: what is written, and behind it what stood there before.
    pub fn into_lent(self) -> &'a mut [u8]
        ensures same_reference { result.ghost_name ≡ self.entry.lent }
        ensures content { result.now ≡ self.entry.bytes ++ self.entry.rest }
    {
        let Text { bytes, .. } = self;
        bytes
    }

    // Writes one byte.
    pub fn put_byte(&mut self, b: u8)
        requires { 0 < self.old.room }
        ensures { Appends self.old (b ∷ []) self.new }
    {
        self.bytes[self.used] = b;
        self.used += 1;
    }

    // Writes one byte, which stays only if it is kept: else the next one goes over it. There is no branch, for one that is foreseen wrongly
    // costs more than a byte.
    pub fn put_byte_if(&mut self, b: u8, kept: bool)
        requires { 0 < self.old.room }
        ensures stays { kept ≡ true → Appends self.old (b ∷ []) self.new }
        ensures covered { kept ≡ false → Covers self.old self.new }
        ensures upper_bound { self.old.room ≤ self.new.room + 1 }
    {
        self.bytes[self.used] = b;
        self.used += kept as usize;
    }

    // Writes the bytes of a text.
    pub fn put_bytes(&mut self, text: &[u8])
        requires { length text.now ≤ self.old.room }
        ensures { Appends self.old text.now self.new }
    {
        let end = self.used + text.len();
        self.bytes[self.used..end].copy_from_slice(text);
        self.used = end;
    }

    // Writes n's decimal digits.
    #[tactic(auto, using(crate::proofs::Writing::digits))]
    pub fn put_decimal(&mut self, n: u64)
        requires { length (decimal n) ≤ self.old.room }
        ensures { Appends self.old (decimal n) self.new }
    {
        if n >= 10 {
            self.put_decimal(n / 10);
        }
        self.put_byte(48 + (n % 10) as u8);
    }

    // Writes n's decimal digits and the byte that ends the field.
    pub fn put_field(&mut self, n: u64, end: u8)
        requires { longest_field ≤ self.old.room }
        ensures written { Appends self.old (decimal n ++ end ∷ []) self.new }
        ensures upper_bound { self.old.room ≤ self.new.room + longest_field }
    {
        self.put_decimal(n);
        self.put_byte(end);
    }
}
