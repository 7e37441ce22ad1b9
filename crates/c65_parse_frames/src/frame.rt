// What is open while a statement is read (C90 6.6).
ghost use Rattle.std.specs.Prelude.{◌≡◌, ◌∷◌, IfOk};
ghost use Rattle.c65_tree.specs.View.{decl_of, stmt_of};
ghost use Rattle.c65_parse_frames.specs.Frames;
ghost use Rattle.c65_parse_frames.specs.Views.{head_of, frame_of, stack_of};

use c65_base::{Name, Pos};
use c65_tree::{Decl, Expr, Stmt, push_last, with_stmt};
use std::alloc::{AllocError, Global};

/// A statement whose last part is the statement that is read next.
#[derive(Drop)]
pub enum Head {
    Label(Pos, Name),
    Case(Pos, Expr),
    Default(Pos),
    Else(Pos, Expr, Stmt),
    Switch(Pos, Expr),
    While(Pos, Expr),
    For(Pos, Option<Expr>, Option<Expr>, Option<Expr>),
}

/// A statement with a place for the statement that is read next. Each is one level of depth.
#[derive(Drop)]
pub enum Frame {
    Head(Head),
    Block(Pos, Vec<Decl>, Vec<Stmt>),
    /// An `if`, which may have an `else`.
    Then(Pos, Expr),
    Do(Pos),
}

/// A frame with the statement in its place: a whole statement, or a frame that needs one more.
#[derive(Drop)]
pub enum Plugged {
    Whole(Stmt),
    Open(Frame),
}

/// What stands at a statement's place.
#[derive(Drop)]
pub enum Begun {
    Open(Frame),
    Decl(Decl),
    Whole(Stmt),
    /// The brace that ends the innermost block.
    Close,
}

/// Where a reading of a statement stands: at its end, or where a statement is needed.
#[derive(Drop)]
pub enum Reached {
    End(Stmt),
    Need(Vec<Frame>),
}

/// What may stand at a place, and how many frames are round it.
#[derive(Clone, Copy)]
pub struct Place {
    pub in_block: bool,
    pub takes_declarations: bool,
    pub around: usize,
}

/// One more frame.
pub fn enter(frames: Vec<Frame>, frame: Frame) -> Result<Vec<Frame>, AllocError>
    ensures { IfOk result (λ r. stack_of r.items ≡ frame_of frame ∷ stack_of frames.items) }
{
    let mut frames = frames;
    match push_last(&mut frames, frame) {
        Ok(()) => Ok(frames),
        Err(refused) => {
            drop(frames);
            Err(refused)
        }
    }
}

fn is_block(frame: &Frame) -> bool
    ensures { result ≡ Frames.is_block (frame_of frame.now) }
{
    match frame {
        Frame::Block(_, _, _) => true,
        Frame::Head(_) => false,
        Frame::Then(_, _) => false,
        Frame::Do(_) => false,
    }
}

/// Whether it is a block without statements yet.
fn is_bare(frame: &Frame) -> bool
    ensures { result ≡ Frames.is_bare (frame_of frame.now) }
{
    match frame {
        Frame::Block(_, _, stmts) => stmts.is_empty(),
        Frame::Head(_) => false,
        Frame::Then(_, _) => false,
        Frame::Do(_) => false,
    }
}

/// The place in the innermost frame.
pub fn place_in(frames: &[Frame]) -> Place
    ensures { result ≡ Frames.place_in (stack_of frames.now) }
{
    match frames.last() {
        Some(frame) => Place {
            in_block: is_block(frame),
            takes_declarations: is_bare(frame),
            around: frames.len(),
        },
        None => Place {
            in_block: false,
            takes_declarations: false,
            around: 0,
        },
    }
}

/// The statement that a head and its last part are.
pub fn complete(alloc: Global, head: Head, stmt: Stmt) -> Result<Stmt, AllocError>
    ensures { IfOk result (λ r. stmt_of r ≡ Frames.completed (head_of head) (stmt_of stmt)) }
{
    match head {
        Head::Label(pos, name) => {
            drop(head);
            Stmt::label(alloc, pos, name, stmt)
        }
        Head::Case(pos, e) => Stmt::case(alloc, pos, e, stmt),
        Head::Default(pos) => {
            drop(head);
            Stmt::default(alloc, pos, stmt)
        }
        Head::Else(pos, e, s) => Stmt::if_else(alloc, pos, e, s, stmt),
        Head::Switch(pos, e) => Stmt::switch(alloc, pos, e, stmt),
        Head::While(pos, e) => Stmt::while_loop(alloc, pos, e, stmt),
        Head::For(pos, e, f, g) => Stmt::for_loop(alloc, pos, e, f, g, stmt),
    }
}

/// A block with one more statement.
pub fn with_statement(
    pos: Pos,
    decls: Vec<Decl>,
    stmts: Vec<Stmt>,
    stmt: Stmt,
) -> Result<Frame, AllocError>
    ensures { IfOk result (λ r. frame_of r ≡ Frames.with_statement pos (Frames.decls_of decls.items) (Frames.stmts_of stmts.items) (stmt_of stmt)) }
{
    let stmts = with_stmt(stmts, stmt)?;
    Ok(Frame::Block(pos, decls, stmts))
}

fn declare_in(frame: Frame, decl: Decl) -> Result<Frame, AllocError>
    ensures { IfOk result (λ r. frame_of r ≡ Frames.declared_in (frame_of frame) (decl_of decl)) }
{
    match frame {
        Frame::Block(pos, decls, stmts) => {
            let mut decls = decls;
            let pushed = push_last(&mut decls, decl);
            match pushed {
                Ok(()) => Ok(Frame::Block(pos, decls, stmts)),
                Err(refused) => {
                    drop(decls);
                    drop(stmts);
                    Err(refused)
                }
            }
        }
        other => {
            drop(decl);
            Ok(other)
        }
    }
}

/// One more declaration in the innermost frame, if it is a block.
pub fn with_declaration(frames: Vec<Frame>, decl: Decl) -> Result<Vec<Frame>, AllocError>
    ensures { IfOk result (λ r. stack_of r.items ≡ Frames.with_declaration (stack_of frames.items) (decl_of decl)) }
{
    let mut frames = frames;
    let Some(frame) = frames.pop() else {
        drop(decl);
        return Ok(frames);
    };
    match declare_in(frame, decl) {
        Ok(frame) => enter(frames, frame),
        Err(refused) => {
            drop(frames);
            Err(refused)
        }
    }
}

/// The block that a frame is, where it is one.
pub fn block_of(frame: Frame) -> Option<Stmt>
    ensures { Frames.option_stmt result ≡ Frames.block_of (frame_of frame) }
{
    match frame {
        Frame::Block(pos, decls, stmts) => Some(Stmt::block(pos, decls, stmts)),
        Frame::Head(_) | Frame::Then(_, _) | Frame::Do(_) => {
            drop(frame);
            None
        }
    }
}
