// A text that is being written, in ASCII: numbers and bytes.
ghost use Rattle.std.specs.Prelude.{◌≡◌, [], ◌∷◌, ◌+◌, ◌*◌, ◌≤◌, ◌<◌, length};
ghost use Rattle.report.specs.Text.{decimal, spaced, hex_digit, hex_byte, bytes_text};
ghost use Rattle.report.specs.Writing.{Wrote, HasRoom};

// The bytes that it is written to, and where what is written ends. How much room it needs is asked for at each call, and is no invariant:
// it depends on what is yet to be written.
#[derive(Drop)]
pub(crate) struct Text<'a> {
    bytes: &'a mut [u8],
    end: usize,
}

impl<'a> Text<'a> {
    pub(crate) fn new(bytes: &'a mut [u8]) -> Text<'a>
        ensures same { result.bytes.ghost_name ≡ bytes.entry.ghost_name }
        ensures bytes { result.bytes.now ≡ bytes.old }
        ensures end { result.end ≡ 0 }
    {
        Text { bytes, end: 0 }
    }

    // How many bytes are written.
    pub(crate) fn length(&self) -> usize
        ensures { result ≡ self.now.end }
    {
        self.end
    }

    // A byte as it is.
    pub(crate) fn byte(&mut self, byte: u8)
        requires { HasRoom 1 self.old }
        ensures { Wrote (byte ∷ []) self.old self.new }
    {
        self.bytes[self.end] = byte;
        self.end += 1;
    }

    // A number in decimal, and a space behind it.
    pub(crate) fn spaced(&mut self, n: usize)
        requires { HasRoom 21 self.old }
        ensures written { Wrote (spaced n) self.old self.new }
        ensures short { self.new.end ≤ self.old.end + 21 }
    {
        self.decimal(n);
        self.byte(b' ');
    }

    // A number in decimal. This and the hexadecimal digits are by hand, since std's write! says what it wrote only where it succeeds, and
    // never that it does.
    fn decimal(&mut self, n: usize)
        requires { HasRoom (length (decimal n)) self.old }
        ensures { Wrote (decimal n) self.old self.new }
    {
        if n < 10 {
            return self.digit(n);
        }
        self.decimal(n / 10);
        self.digit(n % 10);
    }

    // A decimal digit.
    fn digit(&mut self, digit: usize)
        requires { (digit < 10) × HasRoom 1 self.old }
        ensures { Wrote ((0x30 + digit) ∷ []) self.old self.new }
    {
        self.byte(b'0' + digit as u8);
    }

    // Bytes in hexadecimal, or a dash for none.
    pub(crate) fn bytes(&mut self, bytes: &[u8])
        requires { HasRoom (2 * length bytes.now + 1) self.old }
        ensures written { Wrote (bytes_text bytes.now) self.old self.new }
        ensures short { self.new.end ≤ self.old.end + 2 * length bytes.now + 1 }
    {
        // `is_empty` calls std.
        if bytes.len() == 0 {
            self.byte(b'-');
        } else {
            for byte in bytes {
                self.byte(hex_digit(byte / 16));
                self.byte(hex_digit(byte % 16));
            }
        }
    }
}

// A hexadecimal digit.
#[tactic(auto, using(std::proofs::lemmas::Bool::Decides::nat_tests), unfolding(crate::specs::Text::hex_digit))]
fn hex_digit(digit: u8) -> u8
    requires { digit < 16 }
    ensures { result ≡ hex_digit digit }
{
    if digit < 10 {
        b'0' + digit
    } else {
        b'A' + (digit - 10)
    }
}
