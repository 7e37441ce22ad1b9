// The classes of bytes (C90 6.1).
ghost use Rattle.std.specs.Prelude.{◌≡◌, codes};
ghost use Rattle.c65_lex.specs.Spellings;
ghost use Rattle.c65_lex.specs.Spellings.{among};

pub fn is_white(byte: u8) -> bool
    ensures { result ≡ Spellings.is_white byte }
{
    byte == b' ' || byte == b'\t' || byte == 11 || byte == 12
}

pub fn is_letter(byte: u8) -> bool
    ensures { result ≡ Spellings.is_letter byte }
{
    byte.is_ascii_alphabetic() || byte == b'_'
}

pub fn is_digit(byte: u8) -> bool
    ensures { result ≡ Spellings.is_digit byte }
{
    byte.is_ascii_digit()
}

pub fn is_word(byte: u8) -> bool
    ensures { result ≡ Spellings.is_word byte }
{
    is_letter(byte) || is_digit(byte)
}

/// Whether a number goes on with a byte: a sign only just behind an e.
pub fn continues(before: u8, byte: u8) -> bool
    ensures { result ≡ Spellings.continues before byte }
{
    is_word(byte)
        || byte == b'.'
        || ((byte == b'+' || byte == b'-') && (before == b'e' || before == b'E'))
}

pub fn is_punct1(byte: u8) -> bool
    ensures { result ≡ Spellings.is_punct1 byte }
{
    matches!(
        byte,
        b'[' | b']'
            | b'('
            | b')'
            | b'{'
            | b'}'
            | b'.'
            | b'&'
            | b'*'
            | b'+'
            | b'-'
            | b'~'
            | b'!'
            | b'/'
            | b'%'
            | b'<'
            | b'>'
            | b'^'
            | b'|'
            | b'?'
            | b':'
            | b'='
            | b','
            | b'#'
            | b';'
    )
}

fn is_before_equals(byte: u8) -> bool
    ensures { result ≡ among (codes "<>=!*/%+-&^|") byte }
{
    matches!(
        byte,
        b'<' | b'>' | b'=' | b'!' | b'*' | b'/' | b'%' | b'+' | b'-' | b'&' | b'^' | b'|'
    )
}

fn is_doubled(byte: u8) -> bool
    ensures { result ≡ among (codes "+-<>&|#") byte }
{
    matches!(byte, b'+' | b'-' | b'<' | b'>' | b'&' | b'|' | b'#')
}

pub fn is_punct2(first: u8, second: u8) -> bool
    ensures { result ≡ Spellings.is_punct2 first second }
{
    (second == b'=' && is_before_equals(first))
        || (second == first && is_doubled(first))
        || (first == b'-' && second == b'>')
}

pub fn is_punct3(first: u8, second: u8, third: u8) -> bool
    ensures { result ≡ Spellings.is_punct3 first second third }
{
    (second == first && (first == b'<' || first == b'>') && third == b'=')
        || (first == b'.' && second == b'.' && third == b'.')
}
