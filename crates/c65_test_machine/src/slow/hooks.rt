// The hooks, by the page of the machine.
use super::Slow;
use std::alloc::AllocError;

impl Slow {
    fn ax(&self) -> u16 {
        u16::from_le_bytes([self.a, self.x])
    }

    fn answer(&mut self, answer: u16) {
        let [low, high] = answer.to_le_bytes();
        self.a = low;
        self.x = high;
        self.pc = self.pull_word().wrapping_add(1);
    }

    fn pop(&mut self, count: u16) {
        let top = self.memory.word(self.sp).wrapping_add(count);
        self.memory.put_word(self.sp, top);
    }

    fn read(&mut self) {
        let top = self.memory.word(self.sp);
        let buffer = self.memory.word(top);
        let descriptor = self.memory.word(top.wrapping_add(2));
        self.pop(4);
        if descriptor != 0 {
            return self.answer(0xFFFF);
        }
        let mut count: u16 = 0;
        for _ in 0..self.ax() {
            let Some(byte) = self.input.get(self.taken) else {
                break;
            };
            self.memory.put(buffer.wrapping_add(count), *byte);
            self.taken = self.taken.wrapping_add(1);
            count = count.wrapping_add(1);
        }
        self.answer(count);
    }

    fn write(&mut self) -> Result<(), AllocError> {
        let top = self.memory.word(self.sp);
        let buffer = self.memory.word(top);
        if self.memory.word(top.wrapping_add(2)) != 1 {
            self.pop(4);
            self.answer(0xFFFF);
            return Ok(());
        }
        self.pop(4);
        let count = self.ax();
        for offset in 0..count {
            self.output
                .push(self.memory.byte(buffer.wrapping_add(offset)))?;
        }
        self.answer(count);
        Ok(())
    }

    fn arguments(&mut self) {
        let pointer = self.ax();
        let count = u16::try_from(self.args.len()).unwrap_or(0);
        let list = self
            .memory
            .word(self.sp)
            .wrapping_sub(count.wrapping_add(1).wrapping_mul(2));
        let mut entry = list;
        let mut lowest = list;
        for arg in &self.args {
            let length = u16::try_from(arg.len()).unwrap_or(0);
            lowest = lowest.wrapping_sub(length).wrapping_sub(1);
            self.memory.lay(lowest, arg.as_slice());
            self.memory.put(lowest.wrapping_add(length), 0);
            self.memory.put_word(entry, lowest);
            entry = entry.wrapping_add(2);
        }
        self.memory.put_word(entry, 0);
        self.memory.put_word(self.sp, lowest);
        self.memory.put_word(pointer, list);
        self.answer(count);
    }

    /// The hook at pc: whether there is one.
    pub fn hook(&mut self) -> Result<bool, AllocError> {
        match self.pc {
            0xFFF4 => {
                self.pop(u16::from(self.y));
                self.answer(0xFFFF);
            }
            0xFFF5 => self.answer(0xFFFF),
            0xFFF6 => self.read(),
            0xFFF7 => self.write()?,
            0xFFF8 => self.arguments(),
            0xFFF9 => self.status = Some(self.a),
            _ => return Ok(false),
        }
        Ok(true)
    }
}
