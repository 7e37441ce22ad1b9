// Small images made by hand, with what they do worked from the table of opcodes and the hooks.
use crate::{Budget, Run};
use c65_base::{Refusal, Text};
use c65_io::{MemSink, MemSource, mem_sink, mem_source};
use c65_mach::Image;
use std::alloc::Global;
use std::test::Fail;

// `sim65`, version 2, the 6502, the stack pointer at $00, load and reset at $0200.
const HEADER: [u8; 12] = [
    0x73, 0x69, 0x6D, 0x36, 0x35, 0x02, 0x00, 0x00, 0x00, 0x02, 0x00, 0x02,
];

// LDA #42, JMP exit
const ANSWER: &[u8] = &[0xA9, 0x2A, 0x4C, 0xF9, 0xFF];

// The stack at $10 holds the buffer $40 and the descriptor 0. Two bytes are read, and the second is the status.
const SECOND: &[u8] = &[
    0xA9, 0x10, 0x85, 0x00, 0xA9, 0x40, 0x85, 0x10, 0xA2, 0x00, 0xA9, 0x02, 0x20, 0xF6, 0xFF, 0xA5,
    0x41, 0x4C, 0xF9, 0xFF,
];

// The same, and the status is the count that `read` answers.
const COUNT: &[u8] = &[
    0xA9, 0x10, 0x85, 0x00, 0xA9, 0x40, 0x85, 0x10, 0xA2, 0x00, 0xA9, 0x02, 0x20, 0xF6, 0xFF, 0x4C,
    0xF9, 0xFF,
];

// `A` is stored at $40 and written to descriptor 1. The status is the count that `write` answers.
const LETTER: &[u8] = &[
    0xA9, 0x10, 0x85, 0x00, 0xA9, 0x41, 0x85, 0x40, 0xA9, 0x40, 0x85, 0x10, 0xA9, 0x01, 0x85, 0x12,
    0xA2, 0x00, 0xA9, 0x01, 0x20, 0xF7, 0xFF, 0x4C, 0xF9, 0xFF,
];

fn run_of(alloc: Global, payload: &[u8], args: &[Text]) -> Result<Run, Refusal> {
    let mut bytes = Vec::from_slice(alloc, &HEADER)?;
    bytes.extend_from_slice(payload)?;
    let image = Image::parse(alloc, &bytes)?;
    Run::new(alloc, &image, args)
}

// The status or the refusal's status, and the number that it names.
fn told(answer: &Result<u8, Refusal>) -> (u8, u64) {
    match answer {
        Ok(status) => (*status, 0),
        Err(Refusal::Limit { count }) => (111, *count),
        Err(Refusal::HardStack { pc }) => (110, u64::from(*pc)),
        Err(Refusal::Illegal { pc }) => (112, u64::from(*pc)),
        Err(refusal) => (refusal.status(), 0),
    }
}

#[test]
fn images_end_as_their_rows_say(rt: HostRuntime) -> Result<(), Fail> {
    let all = Budget::Instructions(u64::MAX);
    let rows = [
        (ANSWER, all, true, (42, 0), "", 3),
        (ANSWER, Budget::Cycles(5), true, (111, 5), "", 2),
        (ANSWER, Budget::Cycles(6), true, (42, 0), "", 3),
        (ANSWER, Budget::Instructions(0), true, (111, 0), "", 0),
        (&[0x02], all, true, (112, 0x0200), "", 0),
        // SED, CLC, LDA #$19, ADC #$28, JMP exit
        (
            &[0xF8, 0x18, 0xA9, 0x19, 0x69, 0x28, 0x4C, 0xF9, 0xFF],
            all,
            true,
            (71, 0),
            "",
            6,
        ),
        // LDX #1, TXS, JSR $0300; and at S = 0 PHA, with the guard on and off
        (
            &[0xA2, 0x01, 0x9A, 0x20, 0x00, 0x03],
            all,
            true,
            (110, 0x0203),
            "",
            2,
        ),
        (
            &[0xA2, 0x01, 0x9A, 0x48, 0x48],
            all,
            true,
            (110, 0x0204),
            "",
            3,
        ),
        (&[0xA2, 0x00, 0x9A, 0x48], all, true, (110, 0x0203), "", 2),
        (
            &[0xA2, 0x00, 0x9A, 0x48, 0x02],
            all,
            false,
            (112, 0x0204),
            "",
            3,
        ),
        // LDY #2, JSR open, LDA $00, JMP exit; JSR close, JMP exit
        (
            &[0xA0, 0x02, 0x20, 0xF4, 0xFF, 0xA5, 0x00, 0x4C, 0xF9, 0xFF],
            all,
            true,
            (2, 0),
            "",
            6,
        ),
        (
            &[0x20, 0xF5, 0xFF, 0x4C, 0xF9, 0xFF],
            all,
            true,
            (255, 0),
            "",
            4,
        ),
        // LDA #$40, LDX #0, JSR args, JMP exit
        (
            &[0xA9, 0x40, 0xA2, 0x00, 0x20, 0xF8, 0xFF, 0x4C, 0xF9, 0xFF],
            all,
            true,
            (2, 0),
            "",
            6,
        ),
        (SECOND, all, true, (121, 0), "", 11),
        (COUNT, all, true, (2, 0), "", 10),
        (LETTER, all, true, (1, 0), "A", 14),
    ];
    let alloc = rt.alloc();
    let args = vec![in alloc; Text::copy_of(alloc, b"a.c")?, Text::copy_of(alloc, b"x")?]?;
    for (payload, budget, guard, answer, output, count) in rows {
        let mut run = run_of(alloc, payload, &args)?;
        let mut input = mem_source(Vec::from_slice(alloc, b"xyz")?, Vec::new(alloc));
        let mut out = mem_sink(alloc, Vec::new(alloc));
        let given = run.run(&mut input, &mut out, budget, guard);
        assert_eq!(rt; told(&given), answer, "of {payload:?}");
        assert_eq!(rt; out.written(), output.as_bytes());
        assert_eq!(rt; run.count(), count, "rows of {payload:?}");
    }
    Ok(())
}

#[test]
fn a_run_goes_on_after_a_limit_or_a_fault(rt: HostRuntime) -> Result<(), Fail> {
    let alloc = rt.alloc();
    let mut input: MemSource = mem_source(
        Vec::from_slice(alloc, b"x")?,
        Vec::from_slice(alloc, &[1])?,
    );
    let mut out: MemSink = mem_sink(alloc, Vec::from_slice(alloc, &[1])?);
    let rows = [
        (
            ANSWER,
            Budget::Instructions(2),
            [(111, 2), (42, 0), (42, 0)],
            3,
        ),
        (
            COUNT,
            Budget::Instructions(20),
            [(104, 0), (1, 0), (1, 0)],
            10,
        ),
        (LETTER, Budget::Cycles(1000), [(105, 0), (1, 0), (1, 0)], 14),
    ];
    for (payload, budget, answers, count) in rows {
        let mut run = run_of(alloc, payload, &[])?;
        for answer in answers {
            let given = run.run(&mut input, &mut out, budget, true);
            assert_eq!(rt; told(&given), answer, "of {payload:?}");
        }
        assert_eq!(rt; run.count(), count, "rows of {payload:?}");
    }
    assert_eq!(rt; out.written(), b"A".as_slice());
    Ok(())
}

#[test]
fn arguments_of_more_than_1024_bytes_are_refused(rt: HostRuntime) -> Result<(), Fail> {
    let alloc = rt.alloc();
    let fits = Text::from_vec(vec![in alloc; 65; 1019]?);
    assert!(rt; run_of(alloc, ANSWER, &[fits]).is_ok());
    let larger = Text::from_vec(vec![in alloc; 65; 1020]?);
    let refused = run_of(alloc, ANSWER, &[larger]);
    assert!(rt; matches!(refused, Err(Refusal::TooLarge { value: 1025, .. })));
    Ok(())
}
