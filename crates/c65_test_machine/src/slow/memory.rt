// 65,536 bytes.

/// The memory, whose addresses wrap.
#[derive(Drop)]
pub struct Memory {
    pub bytes: Vec<u8>,
}

impl Memory {
    pub fn byte(&self, at: u16) -> u8 {
        self.bytes.get(usize::from(at)).copied().unwrap_or(0)
    }

    pub fn put(&mut self, at: u16, value: u8) {
        if let Some(cell) = self.bytes.get_mut(usize::from(at)) {
            *cell = value;
        }
    }

    pub fn word(&self, at: u16) -> u16 {
        u16::from_le_bytes([self.byte(at), self.byte(at.wrapping_add(1))])
    }

    /// A word whose high byte is in the same page as its low byte.
    pub fn word_in_page(&self, at: u16) -> u16 {
        let [low, high] = at.to_le_bytes();
        let next = u16::from_le_bytes([low.wrapping_add(1), high]);
        u16::from_le_bytes([self.byte(at), self.byte(next)])
    }

    pub fn put_word(&mut self, at: u16, value: u16) {
        let [low, high] = value.to_le_bytes();
        self.put(at, low);
        self.put(at.wrapping_add(1), high);
    }

    pub fn lay(&mut self, at: u16, bytes: &[u8]) {
        let mut place = at;
        for byte in bytes {
            self.put(place, *byte);
            place = place.wrapping_add(1);
        }
    }
}
