// Texts there and back, and texts that are refused, each at its line.
use c65_asm::{print, read};
use c65_base::{Code as Fault, Refusal};
use std::alloc::Global;
use std::test::Fail;

// Each form of line once.
const WHOLE: &[u8] =
    b"; c65 text 1 args\n.code _main,AX\n\tLDA #$05\nL7:\n\tLDX #<q3+0\n\tLDY #>s2+65535\n\tASL A\n\tASL $10\n\tLDA $0A,X\n\tLDX $0A,Y\n\tSTA _v+1\n\tLDA _v+0,X\n\tSTA _v+0,Y\n\tLDA ($08,X)\n\tSTA ($0A),Y\n\tBNE L7\n\tJSR pushax\n\tJSR _f,AXYS,-\n\tJSR callptr4,-,AX\n\tJMP L7\n.end\n.code _f,-\n\tRTS\n.end\n.data s2\n.byte $00,$01,$02,$03,$04,$05,$06,$07,$08,$09,$0A,$0B,$0C,$0D,$0E,$0F\n.byte $FF\n.addr _f+0\n.end\n.const q3\n.byte $48,$00\n.end\n.zero _v,300\n";

#[test]
fn there_and_back(rt: HostRuntime) -> Result<(), Fail> {
    let code = read(rt.alloc(), WHOLE)?;
    assert!(rt; code.main_args);
    assert_eq!(rt; code.functions.as_slice().len(), 2);
    assert_eq!(rt; code.datums.as_slice().len(), 3);
    assert_eq!(rt; code.symbols.as_slice().len(), 5);
    assert_eq!(rt; print(rt.alloc(), &code)?.as_slice(), WHOLE);
    Ok(())
}

// Texts that are read, and printed as they were.
const GOOD: [&[u8]; 6] = [
    b"; c65 text 1\n",
    b"; c65 text 1\n.code _main,AX\n\tLDA #$05\n\tLDX #$00\n\tRTS\n.end\n",
    b"; c65 text 1 args\n.code s0,-\nL4294967295:\n\tJMP L4294967295\n.end\n",
    b"; c65 text 1\n.zero _a_1,0\n.zero q4294967295,4294967295\n",
    b"; c65 text 1\n.const _A9\n.addr _b+65535\n.byte $AF\n.addr _b+0\n.end\n",
    b"; c65 text 1\n.code _f,S\n\tJSR tosmuleax\n\tJSR __g,AY,XS\n\tRTS\nL0:\nL1:\n\tBEQ L1\n\tBNE L0\n\tJMP L0\n.end\n",
];

#[test]
fn printed_as_read(rt: HostRuntime) -> Result<(), Fail> {
    for text in GOOD {
        let code = read(rt.alloc(), text)?;
        assert_eq!(rt; print(rt.alloc(), &code)?.as_slice(), text);
    }
    Ok(())
}

// The line at which a text is refused as none that is printed.
pub fn refused_line(alloc: Global, text: &[u8]) -> Option<u32> {
    match read(alloc, text) {
        Err(Refusal::Source { code, file, line }) => {
            if code == Fault::AssemblyText && file.as_slice() == b"<text>".as_slice() {
                Some(line)
            } else {
                None
            }
        }
        _ => None,
    }
}

// Texts, each with the first line with which no text goes on.
const REFUSED: [(&[u8], u32); 14] = [
    (b"", 1),
    (b"; c65 text 2\n", 1),
    (b"; c65 text 1", 1),
    (
        b"; c65 text 1\n.code _main,AX\n\tLDA #$05\n\tLDX #$00\n\tRTS\n",
        6,
    ),
    (b"; c65 text 1\n.code _main,XA\n", 2),
    (b"; c65 text 1\n.code _main,A\n.end\n", 3),
    (b"; c65 text 1\n.code _main,A\n\tJMP L01\n", 3),
    (b"; c65 text 1\n.code _main,A\n\tJMP L1\n.end\n", 4),
    (b"; c65 text 1\n.code _main,A\nL1:\nL1:\n", 4),
    (b"; c65 text 1\n.code _main,A\n\tSED\n", 3),
    (
        b"; c65 text 1\n.code _main,A\n\tRTS\n.end\n.zero _main,1\n",
        5,
    ),
    (b"; c65 text 1\n.zero _v,1\n.code _main,A\n", 3),
    (b"; c65 text 1\n.data _v\n.byte $00\n.byte $00\n", 4),
    (b"; c65 text 1\n.data _v\n.end\n", 3),
];

#[test]
fn refused_texts(rt: HostRuntime) {
    for (text, want) in REFUSED {
        assert_eq!(rt;
            refused_line(rt.alloc(), text),
            Some(want),
            "a line of {text:?}"
        );
    }
}

// Lines that no function has.
const NO_LINES: [&[u8]; 16] = [
    b"\tLDA A\n",
    b"\tASL\n",
    b"\tSTA #$00\n",
    b"\tJMP ($10)\n",
    b"\tLDA #$0a\n",
    b"\tLDA $10 \n",
    b" LDA $10\n",
    b"\tLDA _v\n",
    b"\tLDA _v+65536\n",
    b"\tLDA s01+0\n",
    b"\tJSR nothing\n",
    b"\tJSR _f,XA,-\n",
    b"\tJSR _f,A\n",
    b"\tBNE L4294967296\n",
    b"\tRTS\r\n",
    b".byte $00\n",
];

#[test]
fn lines_of_no_function(rt: HostRuntime) -> Result<(), Fail> {
    for line in NO_LINES {
        let mut text = Vec::from_slice(rt.alloc(), b"; c65 text 1\n.code _main,A\n".as_slice())?;
        text.extend_from_slice(line)?;
        assert_eq!(rt; refused_line(rt.alloc(), &text), Some(3), "{line:?}");
    }
    Ok(())
}

// Lines that no data have.
const NO_DATA: [&[u8]; 6] = [
    b".byte \n",
    b".byte $00,\n",
    b".byte $00,$01,$02,$03,$04,$05,$06,$07,$08,$09,$0A,$0B,$0C,$0D,$0E,$0F,$10\n",
    b".byte $0\n",
    b".addr _v+00\n",
    b"\tRTS\n",
];

#[test]
fn lines_of_no_data(rt: HostRuntime) -> Result<(), Fail> {
    for line in NO_DATA {
        let mut text = Vec::from_slice(rt.alloc(), b"; c65 text 1\n.data _d\n".as_slice())?;
        text.extend_from_slice(line)?;
        assert_eq!(rt; refused_line(rt.alloc(), &text), Some(3), "{line:?}");
    }
    Ok(())
}
