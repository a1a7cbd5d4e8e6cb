// Texts and numbers stored in a lent line, one after another. What a line has no room for is not stored. By hand, and not by `Display` and `write!`:
// of these the library promises the bytes only where they answer `Ok`, and nowhere that they do. Storing here cannot fail.
#![tactic(auto)]

ghost use Rattle.std.specs.Prelude.{◌≡◌, [], ◌∷◌};
ghost use Rattle.reg_matrix.specs.Lines.{number as decimal, sp};
ghost use Rattle.texts.specs.Texts.{StoredIn};

// A lent line, and the place in it that is stored next. Who has a line made keeps its length beside it, and not a slice of its front, which would
// keep the whole line lent while it is printed.
#[derive(Drop)]
pub struct Line<'a> {
    pub bytes: &'a mut [u8],
    pub at: usize,
}

impl Line<'_> {
    // Stores a byte. A full line stays as it is.
    pub fn byte(&mut self, b: u8)
        ensures same { self.new.bytes.ghost_name ≡ self.old.bytes.ghost_name }
        ensures stored { StoredIn self.old (b ∷ []) self.new }
    {
        if self.at < self.bytes.len() {
            self.bytes[self.at] = b;
            self.at += 1;
        }
    }

    // Stores a text.
    pub fn text(&mut self, bytes: &[u8])
        ensures same { self.new.bytes.ghost_name ≡ self.old.bytes.ghost_name }
        ensures stored { StoredIn self.old bytes.now self.new }
    {
        for b in bytes {
            self.byte(*b);
        }
    }

    // Stores a number's decimal digits.
    pub fn number(&mut self, n: u64)
        ensures same { self.new.bytes.ghost_name ≡ self.old.bytes.ghost_name }
        ensures stored { StoredIn self.old (decimal n) self.new }
    {
        if n >= 10 {
            self.number(n / 10);
        }
        // 48 is the digit 0
        self.byte((48 + n % 10) as u8);
    }

    // Stores a space and a number.
    pub fn spaced(&mut self, n: u64)
        ensures same { self.new.bytes.ghost_name ≡ self.old.bytes.ghost_name }
        ensures stored { StoredIn self.old (sp (decimal n)) self.new }
    {
        self.byte(b' ');
        self.number(n);
    }
}
