//! Classes of bytes, and runs of them.

ghost use Rattle.std.specs.Prelude.{◌≡◌, ◌≤◌, length};
ghost use Rattle.std.specs.List.{prefix_len};
ghost use Rattle.vf_lexer.specs.Bytes.{is_blank, is_letter, is_word_byte, is_number_byte, is_in_line, is_allowed, is_plain, is_quoted};
ghost use Rattle.vf_lexer.specs.Pieces.{is_of};

/// A class of bytes that stand side by side.
#[derive(Clone, Copy, Debug)]
pub enum Class {
    /// Letters, digits and `_`.
    Word,
    /// What may not follow a number directly.
    Number,
    /// All that does not end its line.
    Line,
    /// What stands between double quotes.
    Quoted,
}

/// Whether a byte is tab, line feed, form feed, carriage return or space.
pub fn is_blank(byte: u8) -> bool
    ensures { result ≡ is_blank byte }
{
    byte == b'\t' || byte == b'\n' || byte == 12 || byte == b'\r' || byte == b' '
}

/// Whether a byte is a letter or `_`.
pub fn is_letter(byte: u8) -> bool
    ensures { result ≡ is_letter byte }
{
    byte.is_ascii_alphabetic() || byte == b'_'
}

fn is_word_byte(byte: u8) -> bool
    ensures { result ≡ is_word_byte byte }
{
    is_letter(byte) || byte.is_ascii_digit()
}

fn is_allowed(byte: u8) -> bool
    ensures { result ≡ is_allowed byte }
{
    is_blank(byte) || 33 <= byte && byte <= 126
}

/// Whether a byte stands for itself in a character constant.
pub fn is_plain(byte: u8) -> bool
    ensures { result ≡ is_plain byte }
{
    is_allowed(byte) && byte != b'\'' && byte != b'\\'
}

impl Class {
    fn has(self, byte: u8) -> bool
        ensures { result ≡ is_of self byte }
    {
        match self {
            Class::Word => is_word_byte(byte),
            Class::Number => is_word_byte(byte) || byte == b'.',
            Class::Line => byte != b'\n',
            Class::Quoted => is_allowed(byte) && byte != b'\n' && byte != b'"',
        }
    }

    /// How many bytes at the front of a text are of this class.
    pub fn run_len(self, text: &[u8]) -> usize
        ensures same { result ≡ prefix_len (is_of self) text.now }
        ensures within { result ≤ length text.now }
    {
        let mut len = 0;
        while len < text.len() && self.has(text[len]) {
            len += 1;
        }
        len
    }
}
