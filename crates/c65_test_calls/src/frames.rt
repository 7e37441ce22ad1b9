// Frames of functions made by hand.
use c65_base::Name;
use c65_csem::{Class, Parts, TFunc, TObject, TStmt};
use c65_ctype::{CType, FnType, QType, Types};
use c65_genframe::{Frame, Home, Modes};
use c65_ints::IntType;
use std::alloc::{AllocError, Global};

fn number(kind: IntType) -> QType {
    QType {
        ty: CType::Int(kind),
        is_const: false,
        is_volatile: false,
    }
}

fn object(ty: QType, class: Class) -> TObject {
    TObject {
        name: Some(Name(0)),
        ty,
        class,
        init: None,
    }
}

/// The objects of `int f(char a, register int b, int c) { T d; register char e; }`, and a static one.
fn objects(alloc: Global, d: QType) -> Result<Vec<TObject>, AllocError> {
    let objects = [
        object(number(IntType::UChar), Class::Auto),
        object(number(IntType::Int), Class::Register),
        object(number(IntType::Int), Class::Auto),
        object(d, Class::Auto),
        object(number(IntType::UChar), Class::Register),
        object(number(IntType::Int), Class::Static),
    ];
    Ok(Vec::from_array(alloc, objects)?)
}

/// The parts with these objects.
fn parts(alloc: Global, d: QType) -> Result<Parts, AllocError> {
    let objects = objects(alloc, d)?;
    Ok(Parts {
        types: Types::new(alloc),
        objects,
        literals: Vec::new(alloc),
        funcs: Vec::new(alloc),
    })
}

/// The types of the parameters.
fn parameters(alloc: Global) -> Result<Vec<QType>, AllocError> {
    let types = [
        number(IntType::UChar),
        number(IntType::Int),
        number(IntType::Int),
    ];
    Ok(Vec::from_array(alloc, types)?)
}

fn function(alloc: Global, variadic: bool) -> Result<TFunc, AllocError> {
    let params = Vec::from_array(alloc, [0, 1, 2])?;
    let locals = Vec::from_array(alloc, [3, 4])?;
    let types = parameters(alloc)?;
    Ok(TFunc {
        name: Name(1),
        ty: FnType::new(number(IntType::Int), Some(types), variadic, false),
        external: true,
        params,
        body: Some(TStmt::block(locals, Vec::new(alloc))),
        library: None,
    })
}

fn homes(frame: &Frame) -> [Option<Home>; 6] {
    [
        frame.home(0),
        frame.home(1),
        frame.home(2),
        frame.home(3),
        frame.home(4),
        frame.home(5),
    ]
}

/// Prints where the objects of a function stand.
fn show_homes(rt: &HostRuntime, frame: &Frame<'_>) -> Result<(), anyhow::Error> {
    println!(rt; "{:?}", homes(frame))?;
    println!(rt; "moved {:?} last {:?}", frame.moved(), frame.last())?;
    Ok(())
}

/// Prints how large a frame is, which objects are raised in it, and what its entry checks.
fn show_sizes(rt: &HostRuntime, frame: &Frame<'_>) -> Result<(), anyhow::Error> {
    let sizes = (frame.bank(), frame.soft(), frame.stacked());
    println!(rt; "bank, soft and stacked {sizes:?}")?;
    let raised = (frame.is_raised(2), frame.is_raised(4));
    println!(rt; "raised {raised:?} variadic {}", frame.is_variadic())?;
    println!(rt; "check {:?}", frame.check())?;
    Ok(())
}

/// Prints the frame of a function, or why it has none.
fn show_frame(
    rt: &HostRuntime,
    parts: &Parts,
    function: &TFunc,
    modes: Modes,
) -> Result<(), anyhow::Error> {
    match Frame::of(rt.alloc(), parts, function, modes) {
        Ok(frame) => {
            show_homes(rt, &frame)?;
            show_sizes(rt, &frame)
        }
        Err(refusal) => Ok(println!(rt; "{refusal}")?),
    }
}

/// With `register` honoured or not, and the stacks not checked.
fn honoured(honoured: bool) -> Modes {
    Modes {
        honoured,
        checked: false,
    }
}

/// With the stacks checked, and `register` honoured or not.
fn checked(honoured: bool) -> Modes {
    Modes {
        honoured,
        checked: true,
    }
}

/// `char [1019]`
fn large(alloc: Global) -> Result<QType, AllocError> {
    let element = Box::new(alloc, number(IntType::UChar))?;
    Ok(QType {
        ty: CType::Array(element, Some(1_019)),
        is_const: false,
        is_volatile: false,
    })
}

/// Prints the frame of the function, with further arguments or none.
fn show_function(
    rt: &HostRuntime,
    parts: &Parts,
    variadic: bool,
    modes: Modes,
) -> Result<(), anyhow::Error> {
    let function = function(rt.alloc(), variadic)?;
    let shown = show_frame(rt, parts, &function, modes);
    drop(function);
    shown
}

fn show_modes(rt: &HostRuntime, parts: &Parts) -> Result<(), anyhow::Error> {
    show_function(rt, parts, false, honoured(true))?;
    show_function(rt, parts, true, honoured(false))?;
    show_function(rt, parts, false, checked(true))?;
    show_function(rt, parts, true, checked(false))
}

/// The frames where `d` is an int.
fn show_small(rt: &HostRuntime) -> Result<(), anyhow::Error> {
    let parts = parts(rt.alloc(), number(IntType::Int))?;
    let shown = show_modes(rt, &parts);
    drop(parts);
    shown
}

/// The frame where `d` has 1,019 bytes.
fn show_large(rt: &HostRuntime) -> Result<(), anyhow::Error> {
    let parts = parts(rt.alloc(), large(rt.alloc())?)?;
    let shown = show_function(rt, &parts, false, honoured(false));
    drop(parts);
    shown
}

pub fn show_frames(rt: &HostRuntime) -> Result<(), anyhow::Error> {
    println!(rt; "= frames")?;
    show_small(rt)?;
    show_large(rt)
}
