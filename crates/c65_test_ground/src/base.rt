use c65_base::{Code, LinkKind, Name, Names, Options, Pos, Refusal, Size, Text};
use std::alloc::{AllocError, Global};
use std::test::Fail;

fn line_of(alloc: Global, refusal: &Refusal) -> Result<Vec<u8>, AllocError> {
    let mut bytes = Vec::new(alloc);
    let line = refusal.line();
    for part in line.parts() {
        bytes.extend_from_slice(part)?;
    }
    Ok(bytes)
}

fn is_told(alloc: Global, refusal: &Refusal, status: u8, line: &str) -> Result<bool, AllocError> {
    let bytes = line_of(alloc, refusal)?;
    Ok(bytes.as_slice() == line.as_bytes() && refusal.status() == status)
}

#[test]
fn refusals_without_text_have_their_lines_and_statuses(rt: HostRuntime) -> Result<(), Fail> {
    let pos = Pos { file: 3, line: 7 };
    let rows = [
        (Refusal::OutOfMemory, 101, "c65: out of memory\n"),
        (Refusal::Usage { word: 0 }, 102, "c65: usage at word 0\n"),
        (Refusal::ReadFault, 104, "c65: read fault\n"),
        (Refusal::WriteFault, 105, "c65: write fault\n"),
        (
            Refusal::At {
                code: Code::Syntax,
                pos,
            },
            106,
            "c65: error 200\n",
        ),
        (
            Refusal::TooLarge {
                limit: Size::Arguments,
                value: 1_111,
            },
            107,
            "c65: too large: Arguments 1111\n",
        ),
        (
            Refusal::BadImage { offset: 65_548 },
            108,
            "c65: bad image at 65548\n",
        ),
        (
            Refusal::HardStack { pc: 0x2fa },
            110,
            "c65: hard stack at 02FA\n",
        ),
        (
            Refusal::Limit { count: u64::MAX },
            111,
            "c65: limit 18446744073709551615\n",
        ),
        (
            Refusal::Illegal { pc: 0xbcd9 },
            112,
            "c65: illegal opcode at BCD9\n",
        ),
    ];
    for (refusal, status, line) in &rows {
        assert!(rt; is_told(rt.alloc(), refusal, *status, line)?);
    }
    Ok(())
}

#[test]
fn refusals_with_text_have_their_lines_and_statuses(rt: HostRuntime) -> Result<(), Fail> {
    let alloc = rt.alloc();
    let path = Text::copy_of(alloc, b"b.h")?;
    let file = Text::copy_of(alloc, b"a.c")?;
    let name = Text::from_vec(Vec::from_slice(alloc, b"v")?);
    let rows = [
        (Refusal::Missing { path }, 103, "c65: missing file b.h\n"),
        (
            Refusal::Source {
                code: Code::Float,
                file,
                line: u32::MAX,
            },
            106,
            "a.c:4294967295: error 301\n",
        ),
        (
            Refusal::Link {
                kind: LinkKind::TypesDiffer,
                name,
            },
            109,
            "c65: link: TypesDiffer v\n",
        ),
    ];
    for (refusal, status, line) in &rows {
        assert!(rt; is_told(alloc, refusal, *status, line)?);
    }
    Ok(())
}

fn is_named(code: Code, number: u16, name: &str) -> bool {
    code.number() == number && code.name() == name.as_bytes()
}

#[test]
fn faults_have_their_numbers_and_names(rt: HostRuntime) {
    let rows = [
        (Code::OpenComment, 101, "OpenComment"),
        (Code::NumberRange, 106, "NumberRange"),
        (Code::PredefinedName, 123, "PredefinedName"),
        (Code::Syntax, 200, "Syntax"),
        (Code::ArraySize, 327, "ArraySize"),
        (Code::ConditionType, 334, "ConditionType"),
        (Code::AssemblyText, 401, "AssemblyText"),
    ];
    for (code, number, name) in rows {
        assert!(rt; is_named(code, number, name));
    }
    assert!(rt; Size::Image.number() == 62_960);
    assert!(rt; LinkKind::Main.name() == b"Main".as_slice());
    assert!(rt; !Options::none().optimise);
}

#[test]
fn texts_are_their_bytes(rt: HostRuntime) -> Result<(), Fail> {
    let text = Text::copy_of(rt.alloc(), b"a.c")?;
    let same = text.copy(rt.alloc())?;
    assert!(rt; text == same);
    assert!(rt; text.len() == 3);
    assert!(rt; !text.is_empty());
    assert!(rt; same.into_vec().as_slice() == b"a.c".as_slice());
    Ok(())
}

fn is_spelled(names: &Names, name: Name, spelling: &[u8]) -> bool {
    names.spelling(name) == Some(spelling)
}

#[test]
fn equal_spellings_have_one_name(rt: HostRuntime) -> Result<(), Fail> {
    let mut names = Names::new(rt.alloc());
    assert!(rt; names.is_empty());
    for (spelling, number) in [("main", 0), ("x", 1), ("main", 0), ("", 2), ("x", 1)] {
        let name = names.intern(spelling.as_bytes())?;
        assert!(rt; name.0 == number && is_spelled(&names, name, spelling.as_bytes()));
    }
    assert!(rt; names.len() == 3);
    assert!(rt; names.spelling(Name(3)).is_none());
    Ok(())
}
