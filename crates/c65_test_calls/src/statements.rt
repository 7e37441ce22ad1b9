// Places of statements.
use c65_base::{Pos, Refusal};
use c65_parse_frames::{Frame, Head, Place, enter, place_in};
use std::alloc::Global;

/// In a block, and there behind `default:`.
fn places(alloc: Global) -> Result<[Place; 2], Refusal> {
    let pos = Pos { file: 0, line: 1 };
    let block = Frame::Block(pos, Vec::new(alloc), Vec::new(alloc));
    let frames = enter(Vec::new(alloc), block)?;
    let first = place_in(&frames);
    let frames = enter(frames, Frame::Head(Head::Default(pos)))?;
    let second = place_in(&frames);
    drop(frames);
    Ok([first, second])
}

pub fn show_places(rt: &HostRuntime) -> Result<(), anyhow::Error> {
    println!(rt; "= places of statements")?;
    for place in places(rt.alloc())? {
        println!(rt;
            "declarations {} in a block {} around {}",
            place.takes_declarations, place.in_block, place.around
        )?;
    }
    Ok(())
}
