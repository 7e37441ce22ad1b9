// Blocks of bytes that are cleared or copied.
ghost use Rattle.std.specs.Prelude.{◌≡◌, OnOk, OnErr};
ghost use Rattle.c65_genwide.specs.Lines.{Keeps};
ghost use Rattle.c65_genentry.specs.Words.{with_code};
ghost use Rattle.c65_genentry.specs.Bytes.{rest_code, loop_labels, pages_code, block_code, block_labels, clear_code, copy_code};

use crate::drafts::{fresh, label};
use crate::places::{PTR1, PTR2};
use c65_code::Line::Do;
use c65_code::Operand::{Byte, Nothing, To, Zero};
use c65_code::{Draft, Line};
use c65_genwide::put;
use c65_mach::Mode::{Immediate, Implied, IndirectY, Relative, ZeroPage};
use c65_mach::Op::{Bne, Cpy, Dex, Inc, Iny, Lda, Ldx, Ldy, Sta};
use std::alloc::AllocError;

/// Lines for each of so many pages of 256 bytes, by Y from 0, and others behind each page. X counts
/// the pages down.
fn put_pages(each: &[Line], after: &[Line], pages: u8, draft: &mut Draft) -> Result<(), AllocError>
    ensures lines { OnOk result (draft.new ≡ with_code (loop_labels pages) (pages_code each.now after.now pages draft.old.labels) draft.old) }
    ensures kept { OnErr result (Keeps draft.old draft.new) }
{
    if pages == 0 {
        return put(draft, &[]);
    }
    let head = fresh(draft)?;
    put(draft, &[Do(Ldx, Immediate, Byte(pages))])?;
    label(draft, head)?;
    put(draft, each)?;
    put(
        draft,
        &[Do(Iny, Implied, Nothing), Do(Bne, Relative, To(head))],
    )?;
    put(draft, after)?;
    put(
        draft,
        &[Do(Dex, Implied, Nothing), Do(Bne, Relative, To(head))],
    )
}

/// Lines for each of so many bytes, by Y from 0.
fn put_rest(each: &[Line], bytes: u8, draft: &mut Draft) -> Result<(), AllocError>
    ensures lines { OnOk result (draft.new ≡ with_code (loop_labels bytes) (rest_code each.now bytes draft.old.labels) draft.old) }
    ensures kept { OnErr result (Keeps draft.old draft.new) }
{
    if bytes == 0 {
        return put(draft, &[]);
    }
    let head = fresh(draft)?;
    label(draft, head)?;
    put(draft, each)?;
    put(
        draft,
        &[
            Do(Iny, Implied, Nothing),
            Do(Cpy, Immediate, Byte(bytes)),
            Do(Bne, Relative, To(head)),
        ],
    )
}

fn put_block(each: &[Line], after: &[Line], bytes: u16, draft: &mut Draft) -> Result<(), AllocError>
    ensures lines { OnOk result (draft.new ≡ with_code (block_labels bytes) (block_code each.now after.now bytes draft.old.labels) draft.old) }
    ensures kept { OnErr result (Keeps draft.old draft.new) }
{
    put_pages(each, after, (bytes / 256) as u8, draft)?;
    put_rest(each, (bytes % 256) as u8, draft)
}

/// So many bytes from the address in ptr1 on become zero.
pub fn clear_bytes(bytes: u16, draft: &mut Draft) -> Result<(), AllocError>
    ensures lines { OnOk result (draft.new ≡ with_code (block_labels bytes) (clear_code bytes draft.old.labels) draft.old) }
    ensures kept { OnErr result (Keeps draft.old draft.new) }
{
    put(
        draft,
        &[Do(Ldy, Immediate, Byte(0)), Do(Lda, Immediate, Byte(0))],
    )?;
    put_block(
        &[Do(Sta, IndirectY, Zero(PTR1))],
        &[Do(Inc, ZeroPage, Zero(PTR1 + 1))],
        bytes,
        draft,
    )
}

/// So many bytes from the address in ptr1 on are copied to the address in ptr2, ascending.
pub fn copy_bytes(bytes: u16, draft: &mut Draft) -> Result<(), AllocError>
    ensures lines { OnOk result (draft.new ≡ with_code (block_labels bytes) (copy_code bytes draft.old.labels) draft.old) }
    ensures kept { OnErr result (Keeps draft.old draft.new) }
{
    put(draft, &[Do(Ldy, Immediate, Byte(0))])?;
    put_block(
        &[
            Do(Lda, IndirectY, Zero(PTR1)),
            Do(Sta, IndirectY, Zero(PTR2)),
        ],
        &[
            Do(Inc, ZeroPage, Zero(PTR1 + 1)),
            Do(Inc, ZeroPage, Zero(PTR2 + 1)),
        ],
        bytes,
        draft,
    )
}
