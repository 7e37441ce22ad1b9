// What is known after an instruction or a call that goes on to the next line.
ghost use Rattle.std.specs.Prelude.{◌≡◌, ◌∷◌, [], is_some, ◌&&◌};
ghost use Rattle.c65_mach.specs.Step.{kind_of};
ghost use Rattle.c65_code.specs.declared.parts.Part.TheVariants as parts;
ghost use Rattle.c65_code.specs.Access.{register_reads, register_sets};
ghost use Rattle.c65_know.specs.Rows.{seen, operand_of, taken_in, is_constant, part_reads, are_known, given, set_parts, set_byte, writes, is_read_known, with_results, written_by, after_row, tested_by, takes_at, is_flag, branched_by, passed_by, with_constants, after_call};

use crate::note::{Flag, Note};
use crate::registers::RegisterFile;
use c65_code::{Callee, Operand, Routine};
use c65_mach::{Mode, Op};

// The operand: a literal, A, or a tracked byte addressed as zero page.
fn operand_of(note: &Note, mode: Mode, operand: Operand) -> Option<u8>
    ensures { result ≡ operand_of mode operand note.now }
{
    match (mode, operand) {
        (Mode::Immediate, Operand::Byte(value)) => Some(value),
        (Mode::Accumulator, _) => note.a,
        (Mode::ZeroPage, Operand::Zero(at)) => note.zero_byte(at),
        _ => None,
    }
}

// What an operation works on beside registers; what is pulled is not known.
fn taken_in(note: &Note, op: Op, mode: Mode, operand: Operand) -> Option<u8>
    ensures { result ≡ taken_in (kind_of op) mode operand note.now }
{
    match op {
        Op::Adc | Op::And | Op::Bit | Op::Cmp | Op::Cpx | Op::Cpy | Op::Eor => {
            operand_of(note, mode, operand)
        }
        Op::Lda | Op::Ldx | Op::Ldy | Op::Ora | Op::Sbc => operand_of(note, mode, operand),
        Op::Asl | Op::Dec | Op::Inc | Op::Lsr | Op::Rol | Op::Ror => {
            operand_of(note, mode, operand)
        }
        Op::Brk | Op::Cld | Op::Cli | Op::Jmp | Op::Jsr | Op::Pha | Op::Php | Op::Phx => None,
        Op::Phy | Op::Pla | Op::Plp | Op::Plx | Op::Ply | Op::Rti | Op::Rts | Op::Sed => None,
        Op::Sei | Op::Trb | Op::Tsb | Op::Tsx | Op::Txs => None,
        _ => Some(0),
    }
}

fn is_constant(op: Op, mode: Mode, operand: Operand) -> bool
    ensures { result ≡ is_constant op mode operand }
{
    match (op, mode, operand) {
        (Op::And, Mode::Immediate, Operand::Byte(value)) => value == 0,
        (Op::Ora, Mode::Immediate, Operand::Byte(value)) => value == 255,
        _ => false,
    }
}

// Whether the registers and flags that an operation reads are known.
fn are_inputs_known(note: &Note, op: Op, mode: Mode) -> bool
    ensures { result ≡ are_known note.now (register_reads op mode) }
{
    match op {
        Op::Adc | Op::Sbc => note.a.is_some() && note.c.is_some(),
        Op::And | Op::Eor | Op::Ora | Op::Cmp | Op::Bit => note.a.is_some(),
        Op::Sta | Op::Pha | Op::Tax | Op::Tay | Op::Trb | Op::Tsb => note.a.is_some(),
        Op::Cpx | Op::Dex | Op::Inx | Op::Phx | Op::Stx | Op::Txa | Op::Txs => note.x.is_some(),
        Op::Cpy | Op::Dey | Op::Iny | Op::Phy | Op::Sty | Op::Tya => note.y.is_some(),
        Op::Bcc | Op::Bcs => note.c.is_some(),
        Op::Beq | Op::Bne => note.z.is_some(),
        Op::Bmi | Op::Bpl => note.n.is_some(),
        Op::Bvc | Op::Bvs => note.v.is_some(),
        Op::Brk | Op::Php => are_flags_known(note),
        Op::Asl | Op::Lsr | Op::Inc | Op::Dec => mode != Mode::Accumulator || note.a.is_some(),
        Op::Rol | Op::Ror => { (mode != Mode::Accumulator || note.a.is_some()) && note.c.is_some() }
        _ => true,
    }
}

fn are_flags_known(note: &Note) -> bool
    ensures { result ≡ are_known note.now (parts.N ∷ parts.V ∷ parts.Z ∷ parts.C ∷ []) }
{
    note.n.is_some() && note.v.is_some() && note.z.is_some() && note.c.is_some()
}

// Whether what an operation reads for the carry, or for the bits that BIT copies, is known: the operand alone.
fn is_operand_known(note: &Note, mode: Mode, value: Option<u8>) -> bool
    ensures { result ≡ (is_some value && are_known note.now (register_reads Op.Asl mode)) }
{
    value.is_some() && (mode != Mode::Accumulator || note.a.is_some())
}

fn byte_if(known: bool, value: u8) -> Option<u8>
    ensures { result ≡ given known value }
{
    if known { Some(value) } else { None }
}

fn flag_if(known: bool, value: bool) -> Option<bool>
    ensures { result ≡ given known value }
{
    if known { Some(value) } else { None }
}

// The results of an operation, and whether what it reads for them is known.
#[derive(Clone, Copy)]
struct Results {
    known: bool,
    made: RegisterFile,
}

impl Results {
    fn in_n_and_z(self, note: Note) -> Note
        ensures { result ≡ record note { n = given self.known self.made.n; z = given self.known self.made.z } }
    {
        Note {
            n: flag_if(self.known, self.made.n),
            z: flag_if(self.known, self.made.z),
            ..note
        }
    }

    fn in_z(self, note: Note) -> Note
        ensures { result ≡ record note { z = given self.known self.made.z } }
    {
        Note {
            z: flag_if(self.known, self.made.z),
            ..note
        }
    }

    fn in_a(self, note: Note) -> Note
        ensures { result ≡ record note { a = given self.known self.made.a; n = given self.known self.made.n; z = given self.known self.made.z } }
    {
        Note {
            a: byte_if(self.known, self.made.a),
            ..self.in_n_and_z(note)
        }
    }

    fn in_x(self, note: Note) -> Note
        ensures { result ≡ record note { x = given self.known self.made.x; n = given self.known self.made.n; z = given self.known self.made.z } }
    {
        Note {
            x: byte_if(self.known, self.made.x),
            ..self.in_n_and_z(note)
        }
    }

    fn in_y(self, note: Note) -> Note
        ensures { result ≡ record note { y = given self.known self.made.y; n = given self.known self.made.n; z = given self.known self.made.z } }
    {
        Note {
            y: byte_if(self.known, self.made.y),
            ..self.in_n_and_z(note)
        }
    }

    fn in_v(self, note: Note) -> Note
        ensures { result ≡ record note { v = given self.known self.made.v } }
    {
        Note {
            v: flag_if(self.known, self.made.v),
            ..note
        }
    }

    fn in_c(self, note: Note) -> Note
        ensures { result ≡ record note { c = given self.known self.made.c } }
    {
        Note {
            c: flag_if(self.known, self.made.c),
            ..note
        }
    }

    // BIT copies N and V from its operand.
    fn of_bits(self, copied: bool, note: Note) -> Note
        ensures { result ≡ record note { n = given copied self.made.n; v = given copied self.made.v; z = given self.known self.made.z } }
    {
        Note {
            n: flag_if(copied, self.made.n),
            v: flag_if(copied, self.made.v),
            z: flag_if(self.known, self.made.z),
            ..note
        }
    }

    // A shift or a count of A, or of a byte.
    fn in_operand(self, mode: Mode, note: Note) -> Note
        ensures { result ≡ set_parts (λ part. self.known) (seen self.made) (register_sets Op.Inc mode) note }
    {
        match mode {
            Mode::Accumulator => self.in_a(note),
            _ => self.in_n_and_z(note),
        }
    }
}

// The registers and flags that a row sets.
fn with_results(note: Note, op: Op, mode: Mode, operand: Operand, value: Option<u8>) -> Note
    ensures { result ≡ with_results op mode operand value note }
{
    let (made, _) = RegisterFile::of(&note).worked(op, mode, value.unwrap_or(0));
    let known = value.is_some()
        && (is_constant(op, mode, operand) || are_inputs_known(&note, op, mode));
    let results = Results { known, made };
    let copied = Results {
        known: is_operand_known(&note, mode, value),
        made,
    };
    match op {
        Op::Adc | Op::Sbc => results.in_c(results.in_v(results.in_a(note))),
        Op::And | Op::Eor | Op::Ora | Op::Lda | Op::Pla | Op::Txa | Op::Tya => results.in_a(note),
        Op::Dex | Op::Inx | Op::Ldx | Op::Plx | Op::Tax | Op::Tsx => results.in_x(note),
        Op::Dey | Op::Iny | Op::Ldy | Op::Ply | Op::Tay => results.in_y(note),
        Op::Dec | Op::Inc => results.in_operand(mode, note),
        Op::Asl | Op::Lsr => results.in_c(results.in_operand(mode, note)),
        Op::Rol | Op::Ror => copied.in_c(results.in_operand(mode, note)),
        Op::Cmp | Op::Cpx | Op::Cpy => results.in_c(results.in_n_and_z(note)),
        Op::Bit => results.of_bits(value.is_some(), note),
        Op::Clc | Op::Sec => results.in_c(note),
        Op::Clv => results.in_v(note),
        Op::Plp | Op::Rti => results.in_c(results.in_v(results.in_n_and_z(note))),
        Op::Trb | Op::Tsb => results.in_z(note),
        _ => note,
    }
}

// The byte that an operation writes, if it is known.
fn written_by(note: &Note, op: Op, mode: Mode, value: Option<u8>) -> Option<u8>
    ensures { result ≡ written_by op mode value note.now }
{
    let (_, byte) = RegisterFile::of(note).worked(op, mode, value.unwrap_or(0));
    byte_if(value.is_some() && are_inputs_known(note, op, mode), byte)
}

// Where an index says which byte is written, no tracked byte stays known.
fn set_byte(note: Note, mode: Mode, operand: Operand, value: Option<u8>) -> Note
    ensures { result ≡ set_byte mode operand value note }
{
    match (mode, operand) {
        (Mode::ZeroPage, Operand::Zero(at)) => note.with_zero_byte(at, value),
        (Mode::ZeroPageX | Mode::ZeroPageY, _) => note.without_zero_page(),
        _ => note,
    }
}

fn writes(op: Op) -> bool
    ensures { result ≡ writes op }
{
    match op {
        Op::Sta | Op::Stx | Op::Sty | Op::Stz => true,
        Op::Asl | Op::Dec | Op::Inc | Op::Lsr | Op::Rol | Op::Ror => true,
        Op::Trb | Op::Tsb => true,
        _ => false,
    }
}

/// After an instruction that is no branch and no jump.
pub(crate) fn after_row(note: Note, op: Op, mode: Mode, operand: Operand) -> Note
    ensures { result ≡ after_row op mode operand note }
{
    let value = taken_in(&note, op, mode, operand);
    let set = with_results(note, op, mode, operand, value);
    if writes(op) {
        set_byte(set, mode, operand, written_by(&note, op, mode, value))
    } else {
        set
    }
}

// The flag that a branch tests; BRA tests none.
fn tested_by(op: Op) -> Option<Flag>
    ensures { result ≡ tested_by op }
{
    match op {
        Op::Bcc | Op::Bcs => Some(Flag::C),
        Op::Beq | Op::Bne => Some(Flag::Z),
        Op::Bmi | Op::Bpl => Some(Flag::N),
        Op::Bvc | Op::Bvs => Some(Flag::V),
        _ => None,
    }
}

// The value of its flag at which a branch is taken.
fn takes_at(op: Op) -> bool
    ensures { result ≡ takes_at op }
{
    !matches!(op, Op::Bcc | Op::Bne | Op::Bpl | Op::Bvc)
}

fn is_flag(known: Option<bool>, value: bool) -> bool
    ensures { result ≡ is_flag value known }
{
    match known {
        Some(flag) => value == flag,
        None => false,
    }
}

/// Where a branch or a jump leads, what is known on the way there.
pub(crate) fn leap(note: Note, op: Op) -> Note
    ensures { result ≡ branched_by (tested_by op) (takes_at op) note }
{
    match tested_by(op) {
        Some(flag) => note.with_flag(flag, takes_at(op)),
        None => note,
    }
}

/// Behind a branch, what is known there if it is not taken; none behind one that always is.
pub(crate) fn passed(note: Note, op: Op) -> Option<Note>
    ensures { result ≡ passed_by (tested_by op) (takes_at op) note }
{
    let flag = tested_by(op)?;
    if is_flag(note.flag(flag), takes_at(op)) {
        Some(Note::nothing())
    } else {
        Some(note.with_flag(flag, !takes_at(op)))
    }
}

// The results of routines that are constants.
fn with_constants(note: Note, routine: Routine) -> Note
    ensures { result ≡ with_constants routine note }
{
    match routine {
        Routine::PushA0 | Routine::LdAi => Note { x: Some(0), ..note },
        Routine::Push0 => Note {
            a: Some(0),
            x: Some(0),
            ..note
        },
        _ => note,
    }
}

/// After a call. A routine keeps what it does not set; after a function nothing is known.
pub(crate) fn after_call(note: &Note, callee: &Callee) -> Note
    ensures { result ≡ after_call callee.now note.now }
{
    match callee {
        Callee::Routine(routine) => with_constants(note.forgetting(routine.sets()), *routine),
        Callee::Function(_, _, _) | Callee::Pointer(_, _) => Note::nothing(),
    }
}
