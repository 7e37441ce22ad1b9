// What a run starts from, and its form as a file.
ghost use Rattle.std.specs.Prelude.{◌≡◌, ◌+◌, ◌<◌, ◌≤◌, length, IfOk, IfErr, IfNone, MatchResult, nat_lt, slice_index, ◌/◌, ◌%◌, ◌∷◌, []};
ghost use Rattle.c65_mach.specs.Images.{bytes_of, cpu_byte, cpu_of, word_in, wrong_in, fixed, fault_of, Spells, Breaks, Parses};

use c65_base::{Cpu, Refusal, Text};
use std::alloc::Global;

/// A program for the machine: where its bytes go, and where it begins.
#[derive(Debug, Drop)]
pub struct Image {
    /// The processor that the program is made for.
    pub cpu: Cpu,
    /// The zero-page address of the software stack's pointer.
    pub sp: u8,
    /// The address of the payload's first byte.
    pub load: u16,
    /// The address of the first instruction.
    pub reset: u16,
    /// The bytes that a run loads.
    pub payload: Text,
}

// The bytes before the payload.
const HEADER: usize = 12;

impl Image {
    /// The file: a header of 12 bytes and then the payload. The header is `sim65`, the version 2, the processor
    /// (0 for the 6502, 1 for the 65C02), sp, and the load and reset addresses, each low byte first.
    /// It refuses for want of memory alone.
    pub fn bytes(&self, alloc: Global) -> Result<Vec<u8>, Refusal>
        ensures ok { IfOk result (λ bytes. bytes.items ≡ bytes_of self.now) }
        ensures refused { IfErr result (λ refusal. refusal ≡ Refusal.OutOfMemory) }
    {
        let [load_low, load_high] = word_bytes(self.load);
        let [reset_low, reset_high] = word_bytes(self.reset);
        let header = [
            b's',
            b'i',
            b'm',
            b'6',
            b'5',
            2,
            cpu_code(self.cpu),
            self.sp,
            load_low,
            load_high,
            reset_low,
            reset_high,
        ];
        let mut bytes = Vec::from_slice(alloc, &header)?;
        bytes.extend_from_slice(self.payload.as_slice())?;
        Ok(bytes)
    }

    /// The image that a file spells. A file that spells none is refused as `BadImage`, with the first offset that
    /// breaks the form: a byte that is wrong, the end of a header that is cut off, or the first byte of the payload
    /// that would pass $FFFF. Any other refusal is for want of memory.
    pub fn parse(alloc: Global, bytes: &[u8]) -> Result<Image, Refusal>
        ensures found { IfOk result (λ image. Spells bytes.now image) }
        ensures only { (image : Image) → Spells bytes.now image → MatchResult result (λ read. read ≡ image) (λ refusal. refusal ≡ Refusal.OutOfMemory) }
        ensures first { IfErr result (λ refusal. Breaks bytes.now refusal) }
        ensures exact { Parses bytes.now result }
    {
        Image::read(alloc, bytes)
    }

    fn read(alloc: Global, bytes: &[u8]) -> Result<Image, Refusal>
        ensures { Parses bytes.now result }
    {
        if let Some(offset) = first_fault(bytes) {
            return Err(Refusal::BadImage { offset });
        }
        let payload = Text::copy_of(alloc, &bytes[HEADER..])?;
        Ok(Image {
            cpu: cpu(bytes[6]),
            sp: bytes[7],
            load: word(bytes, 8),
            reset: word(bytes, 10),
            payload,
        })
    }
}

fn cpu_code(cpu: Cpu) -> u8
    ensures { result ≡ cpu_byte cpu }
{
    match cpu {
        Cpu::Nmos => 0,
        Cpu::Cmos => 1,
    }
}

fn cpu(code: u8) -> Cpu
    ensures { result ≡ cpu_of code }
{
    match code {
        0 => Cpu::Nmos,
        _ => Cpu::Cmos,
    }
}

fn word_bytes(value: u16) -> [u8; 2]
    ensures { result ≡ value % 256 ∷ value / 256 ∷ [] }
{
    value.to_le_bytes()
}

fn word(bytes: &[u8], at: usize) -> u16
    requires { at + 1 < length bytes.now }
    ensures { result ≡ word_in bytes.now at }
{
    u16::from_le_bytes([bytes[at], bytes[at + 1]])
}

// The offset of the first byte of the fixed part that is wrong or is not there.
fn wrong_start(bytes: &[u8]) -> Option<u32>
    ensures { result ≡ wrong_in fixed bytes.now 0 }
{
    for (at, want) in b"sim65\x02".iter().enumerate() {
        if at >= bytes.len() || bytes[at] != *want {
            return Some(at as u32);
        }
    }
    None
}

// The byte of the processor is there and is neither 0 nor 1.
fn names_no_cpu(bytes: &[u8]) -> bool
    ensures { result ≡ nat_lt 1 (slice_index bytes.now 6) }
{
    bytes.len() > 6 && bytes[6] > 1
}

fn first_fault(bytes: &[u8]) -> Option<u32>
    ensures offset { result ≡ fault_of bytes.now }
    ensures long { IfNone result (12 ≤ length bytes.now) }
{
    if let Some(at) = wrong_start(bytes) {
        return Some(at);
    }
    if names_no_cpu(bytes) {
        return Some(6);
    }
    if bytes.len() < HEADER {
        return Some(bytes.len() as u32);
    }
    let end = HEADER + 65536 - usize::from(word(bytes, 8));
    if bytes.len() > end {
        return Some(end as u32);
    }
    None
}
