// Texts with note lines: written, read back, and refused, each at its line.
use crate::texts::refused_line;
use c65_asm::{print, print_known, read};
use std::alloc::Global;
use std::test::Fail;

// Texts without and with note lines, worked by hand from the rules of what is known.
const KNOWN: [(&[u8], &[u8]); 7] = [
    (
        b"; c65 text 1\n.code _main,AX\n\tLDA #$05\n\tLDX #$00\n\tRTS\n.end\n",
        b"; c65 text 1\n.code _main,AX\n\tLDA #$05\n\t; A=05 N=0 Z=0\n\tLDX #$00\n\t; A=05 X=00 N=0 Z=1\n\tRTS\n.end\n",
    ),
    // nothing is known, so no line has a note
    (
        b"; c65 text 1\n.code _f,-\n\tRTS\n.end\n.zero _v,3\n",
        b"; c65 text 1\n.code _f,-\n\tRTS\n.end\n.zero _v,3\n",
    ),
    // each byte and each flag, in their order
    (
        b"; c65 text 1\n.code _f,-\n\tLDA #$FE\n\tSTA $02\n\tSTA $03\n\tSTA $08\n\tSTA $09\n\tSTA $10\n\tTAX\n\tLDY #$80\n\tCLV\n\tSEC\n\tRTS\n.end\n",
        b"; c65 text 1\n.code _f,-\n\tLDA #$FE\n\t; A=FE N=1 Z=0\n\tSTA $02\n\t; A=FE S0=FE N=1 Z=0\n\tSTA $03\n\t; A=FE S0=FE S1=FE N=1 Z=0\n\tSTA $08\n\t; A=FE S0=FE S1=FE P0=FE N=1 Z=0\n\tSTA $09\n\t; A=FE S0=FE S1=FE P0=FE P1=FE N=1 Z=0\n\tSTA $10\n\t; A=FE S0=FE S1=FE P0=FE P1=FE T1=FE N=1 Z=0\n\tTAX\n\t; A=FE X=FE S0=FE S1=FE P0=FE P1=FE T1=FE N=1 Z=0\n\tLDY #$80\n\t; A=FE X=FE Y=80 S0=FE S1=FE P0=FE P1=FE T1=FE N=1 Z=0\n\tCLV\n\t; A=FE X=FE Y=80 S0=FE S1=FE P0=FE P1=FE T1=FE N=1 V=0 Z=0\n\tSEC\n\t; A=FE X=FE Y=80 S0=FE S1=FE P0=FE P1=FE T1=FE N=1 V=0 Z=0 C=1\n\tRTS\n.end\n",
    ),
    // a label has no note; what both ways know is known at it
    (
        b"; c65 text 1\n.code _f,A\n\tLDX #$03\n\tLDA $20\n\tBEQ L0\n\tLDA #$00\nL0:\n\tRTS\n.end\n",
        b"; c65 text 1\n.code _f,A\n\tLDX #$03\n\t; X=03 N=0 Z=0\n\tLDA $20\n\t; X=03\n\tBEQ L0\n\t; X=03 Z=0\n\tLDA #$00\nL0:\n\t; X=03 Z=1\n\tRTS\n.end\n",
    ),
    // nothing is known at a label that a line behind it refers to, nor behind a jump
    (
        b"; c65 text 1\n.code _f,A\n\tLDA #$01\nL0:\n\tLDX #$00\n\tJMP L0\n\tRTS\n.end\n",
        b"; c65 text 1\n.code _f,A\n\tLDA #$01\nL0:\n\tLDX #$00\n\t; X=00 N=0 Z=1\n\tJMP L0\n\tRTS\n.end\n",
    ),
    // constant results of a routine; nothing behind the call of a function
    (
        b"; c65 text 1\n.code _f,A\n\tJSR push0\n\tJSR _g,AX,-\n\tLDA #<q1+2\n\tRTS\n.end\n.code _g,-\n\tRTS\n.end\n.const q1\n.byte $41,$00\n.end\n",
        b"; c65 text 1\n.code _f,A\n\tJSR push0\n\t; A=00 X=00\n\tJSR _g,AX,-\n\tLDA #<q1+2\n\tRTS\n.end\n.code _g,-\n\tRTS\n.end\n.const q1\n.byte $41,$00\n.end\n",
    ),
    (b"; c65 text 1 args\n", b"; c65 text 1 args\n"),
];

#[test]
fn notes_are_printed(rt: HostRuntime) -> Result<(), Fail> {
    for (plain, known) in KNOWN {
        let code = read(rt.alloc(), plain)?;
        assert_eq!(rt; print_known(rt.alloc(), &code)?.as_slice(), known);
    }
    Ok(())
}

#[test]
fn notes_are_read(rt: HostRuntime) -> Result<(), Fail> {
    for (plain, known) in KNOWN {
        let code = read(rt.alloc(), known)?;
        assert_eq!(rt; print(rt.alloc(), &code)?.as_slice(), plain);
        assert_eq!(rt; print_known(rt.alloc(), &code)?.as_slice(), known);
    }
    Ok(())
}

const TWO_LOADS: &[u8] =
    b"; c65 text 1\n.code _main,AX\n\tLDA #$05\n\t; A=05 N=0 Z=0\n\tLDX #$00\n\t; A=05 X=00 N=0 Z=1\n\tRTS\n.end\n";

// Texts, each with the first line at which it is none that is printed: note lines are counted.
const REFUSED: [(&[u8], u32); 16] = [
    // lines that are wrong or missing, behind note lines
    (
        b"; c65 text 1\n.code _main,AX\n\tLDA #$05\n\t; A=05 N=0 Z=0\n\tLDX #$00\n\t; A=05 X=00 N=0 Z=1\n\tRTS\n",
        8,
    ),
    (
        b"; c65 text 1\n.code _main,AX\n\tLDA #$05\n\t; A=05 N=0 Z=0\n\tLDX #$0\n\t; A=05 X=00 N=0 Z=1\n\tRTS\n.end\n",
        5,
    ),
    (
        b"; c65 text 1\n.code _main,AX\n\tLDA #$05\n\t; A=05 N=0 Z=0\n\tLDX #$00\n\t; A=05 X=00 N=0 Z=1\n.end\n",
        7,
    ),
    // a line that is wrong comes before a note that is
    (
        b"; c65 text 1\n.code _main,AX\n\tLDA #$05\n\t; A=06 N=0 Z=0\n\tLDX #$0\n\tRTS\n.end\n",
        5,
    ),
    (b"\t; A=05\n", 2),
    (b"\t; A=05\n; c65 text 2\n", 2),
    // notes that are left out, in part or one field of them
    (
        b"; c65 text 1\n.code _main,AX\n\tLDA #$05\n\tLDX #$00\n\t; A=05 X=00 N=0 Z=1\n\tRTS\n.end\n",
        4,
    ),
    (
        b"; c65 text 1\n.code _main,AX\n\tLDA #$05\n\t; A=05 N=0 Z=0\n\tLDX #$00\n\tRTS\n.end\n",
        6,
    ),
    (
        b"; c65 text 1\n.code _main,AX\n\tLDA #$05\n\t; A=05 N=0 Z=0\n\tLDX #$00\n\t; A=05 X=00 N=0\n\tRTS\n.end\n",
        6,
    ),
    // fields in another order
    (
        b"; c65 text 1\n.code _main,AX\n\tLDA #$05\n\t; A=05 Z=0 N=0\n\tLDX #$00\n\t; A=05 X=00 N=0 Z=1\n\tRTS\n.end\n",
        4,
    ),
    // notes of lines of which nothing is known, or that are none of a function
    (b"; c65 text 1\n.code _f,-\n\t;\n\tRTS\n.end\n", 3),
    (b"; c65 text 1\n.code _f,-\n\tRTS\n\t; A=05\n.end\n", 4),
    (b"; c65 text 1\n\t; A=05\n", 2),
    (b"\t; A=05\n; c65 text 1\n.code _f,-\n\tRTS\n.end\n", 1),
    // a last line without its line feed is none
    (
        b"; c65 text 1\n.code _main,AX\n\tLDA #$05\n\t; A=05 N=0 Z=0",
        4,
    ),
    (b"; c65 text 1\n.code _f,-\n\tRTS\n.end\n\t; A=05", 5),
];

#[test]
fn refused_notes(rt: HostRuntime) {
    for (text, want) in REFUSED {
        assert_eq!(rt; refused_line(rt.alloc(), text), Some(want));
    }
}

// Where the notes of `TWO_LOADS` begin, behind tab and semicolon, where they end, and their lines.
const NOTES: [(usize, usize, u32); 2] = [(40, 53, 4), (66, 84, 6)];

fn with_byte(alloc: Global, text: &[u8], at: usize, byte: u8) -> Result<Vec<u8>, Fail> {
    let mut changed = Vec::from_slice(alloc, text)?;
    if at < changed.len() {
        changed[at] = byte;
    }
    Ok(changed)
}

// Each byte of a note line changed to one that is none of its line.
#[test]
fn each_byte_of_a_note(rt: HostRuntime) -> Result<(), Fail> {
    for (first, end, line) in NOTES {
        for at in first..end {
            let text = with_byte(rt.alloc(), TWO_LOADS, at, b'_')?;
            assert_eq!(rt; refused_line(rt.alloc(), &text), Some(line));
        }
    }
    Ok(())
}
