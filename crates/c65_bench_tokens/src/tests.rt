// A text of more than 1 MiB.
use crate::read_unit;
use c65_base::Names;
use c65_scan::scan;
use std::test::Fail;

#[test]
fn a_text_of_a_mebibyte_has_its_tokens(rt: HostRuntime) -> Result<(), Fail> {
    let alloc = rt.alloc();
    let mut text = Vec::new(alloc);
    for _ in 0..70_000 {
        text.extend_from_slice(b"int x/**/=1+y;\n")?;
    }
    let mut names = Names::new(alloc);
    let unit = read_unit(alloc, text, &mut names)?;
    let tokens = scan(alloc, &unit, &names)?;
    // A line has seven tokens and its end; the scanner leaves the ends out and adds one End.
    assert_eq!(rt; unit.tokens.as_slice().len(), 560_000);
    assert_eq!(rt; tokens.as_slice().len(), 490_001);
    Ok(())
}
