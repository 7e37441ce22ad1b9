use c65_base::Name;
use c65_parse_names::Scope;
use std::test::Fail;

#[test]
fn an_inner_declaration_hides_a_type_to_the_end_of_its_block(rt: HostRuntime) -> Result<(), Fail> {
    let mut scope = Scope::new(rt.alloc());
    scope.declare(Name(7), true)?;
    let outside = scope.is_type(Name(7));
    scope.open()?;
    scope.declare(Name(7), false)?;
    scope.declare(Name(9), true)?;
    let hidden = scope.is_type(Name(7));
    let inside = scope.is_type(Name(9));
    scope.close();
    assert!(rt; outside);
    assert!(rt; !hidden);
    assert!(rt; inside);
    assert!(rt; scope.is_type(Name(7)));
    assert!(rt; !scope.is_type(Name(9)));
    assert!(rt; !scope.is_type(Name(65_535)));
    Ok(())
}

#[test]
fn the_outermost_block_stays_open(rt: HostRuntime) -> Result<(), Fail> {
    let mut scope = Scope::new(rt.alloc());
    scope.declare(Name(0), true)?;
    scope.close();
    assert!(rt; scope.is_type(Name(0)));
    Ok(())
}
