// The words of a line.

/// The words that were not read yet. A word that is not there reads as 0.
#[derive(Drop)]
pub struct Words<'a> {
    rest: &'a str,
}

impl<'a> Words<'a> {
    pub fn new(line: &'a str) -> Words<'a> {
        Words { rest: line }
    }

    /// The next word.
    pub fn next_word(&mut self) -> &'a str {
        let (word, rest) = match self.rest.split_once(' ') {
            Some(parts) => parts,
            None => (self.rest, ""),
        };
        self.rest = rest;
        word
    }

    /// The next number, in hexadecimal.
    pub fn long(&mut self) -> u32 {
        number(self.next_word())
    }

    pub fn word(&mut self) -> u16 {
        let [low, high, _, _] = self.long().to_le_bytes();
        u16::from_le_bytes([low, high])
    }

    pub fn byte(&mut self) -> u8 {
        let [low, _, _, _] = self.long().to_le_bytes();
        low
    }
}

/// The number of a word in hexadecimal.
pub fn number(word: &str) -> u32 {
    let mut number = 0_u32;
    for byte in word.as_bytes() {
        number = number.wrapping_mul(16).wrapping_add(digit(*byte));
    }
    number
}

fn digit(byte: u8) -> u32 {
    match byte {
        b'0'..=b'9' => u32::from(byte - b'0'),
        b'A'..=b'F' => u32::from(byte - b'A' + 10),
        _ => 0,
    }
}
