// The routines of the runtime, and their names in assembly text (MACHINE.md, "Routines").
ghost use Rattle.std.specs.Prelude.{◌≡◌, ◌<◌, ◌≤◌, Some, IfSome};
ghost use Rattle.c65_code.specs.Names.{name_of, word_name_of, long_name_of, unary_name_of, found_in};
ghost use Rattle.c65_code.specs.Numbering.{library_number, number_of};

use c65_base::Library;
use std::ops::Range;

/// How many bytes `incsp` and `decsp` move the software stack's pointer.
#[derive(Clone, Copy, Debug, PartialEq, Eq)]
pub enum Count {
    One,
    Two,
    Three,
    Four,
    Five,
    Six,
    Seven,
    Eight,
}

/// Whether a routine works on AX, of 16 bits, or on EAX, of 32 bits.
#[derive(Clone, Copy, Debug, PartialEq, Eq)]
pub enum Width {
    Ax,
    Eax,
}

/// The operators that take their left operand from the software stack. Those that begin with `U` are unsigned.
#[derive(Clone, Copy, Debug, PartialEq, Eq)]
pub enum TosOp {
    Add,
    Sub,
    Mul,
    And,
    Or,
    Xor,
    Div,
    Mod,
    UDiv,
    UMod,
    Shl,
    Shr,
    Asr,
    Eq,
    Ne,
    Lt,
    Le,
    Gt,
    Ge,
    ULt,
    ULe,
    UGt,
    UGe,
}

/// The operators on the primary register alone: minus, complement, shifts by one, and whether it is zero.
#[derive(Clone, Copy, Debug, PartialEq, Eq)]
pub enum UnaryRoutine {
    Neg,
    Compl,
    Shl1,
    Shr1,
    Asr1,
    BNeg,
}

/// A routine of the runtime. AX is A with X as high byte; EAX has sreg above it. TOS is the value at sp, which the routine pops.
#[derive(Clone, Copy, Debug, PartialEq, Eq)]
pub enum Routine {
    /// Pushes A.
    PushA,
    /// Pushes AX.
    PushAx,
    /// Pushes A with a zero byte above it.
    PushA0,
    /// Pushes the word 0.
    Push0,
    /// Pushes EAX.
    PushEax,
    PopA,
    PopAx,
    PopEax,
    /// Pops ptr1 and then ptr2.
    PopPtrs,
    /// Raises sp.
    IncSp(Count),
    /// Lowers sp.
    DecSp(Count),
    /// Raises sp by Y.
    AddYSp,
    /// Lowers sp by Y.
    SubYSp,
    /// The word whose high byte is at sp + Y.
    LdAxYSp,
    /// The word at sp.
    LdAx0Sp,
    /// The four bytes whose last one is at sp + Y.
    LdEaxYSp,
    /// Stores AX at sp + Y.
    StAxYSp,
    /// Stores AX at sp.
    StAx0Sp,
    /// Stores EAX at sp + Y.
    StEaxYSp,
    /// The byte at address AX.
    LdAi,
    /// The word at address AX.
    LdAxi,
    /// The four bytes at address AX.
    LdEaxi,
    /// Stores A at address TOS.
    StATos,
    /// Stores AX at address TOS.
    StAxTos,
    /// Stores EAX at address TOS.
    StEaxTos,
    /// Copies ptr3 bytes, ascending, from address AX to address TOS.
    CopyTos,
    /// TOS and the primary register.
    Tos(TosOp, Width),
    /// The primary register alone.
    Unary(UnaryRoutine, Width),
    /// AX from A as signed char.
    SignA,
    /// EAX from AX by its sign.
    LongAx,
    /// EAX from AX with zeros.
    ULongAx,
    /// Pushes regbank.
    SaveRegs,
    /// Pops regbank.
    RestRegs,
    /// Jumps to the address in ptr4.
    CallPtr4,
    /// Ends the run with status 240 where less is left of the stacks than tmp3 and tmp4 ask for.
    StkChk,
    /// Calls main, and ends with its low byte.
    Start,
    /// The same with the program's arguments.
    StartArgs,
    /// A function of C's library.
    Library(Library),
    /// The hooks of the simulator (MACHINE.md, "Runs").
    HookOpen,
    HookClose,
    HookRead,
    HookWrite,
    HookArgs,
    HookExit,
}

impl Routine {
    /// How many routines there are.
    pub const COUNT: usize = 123;

    /// All of them. Each stands before those that it calls, and the hooks stand last.
    pub const ALL: [Routine; Routine::COUNT] = [
        Routine::Start,
        Routine::StartArgs,
        Routine::Library(Library::Puts),
        Routine::Library(Library::Getchar),
        Routine::Library(Library::Exit),
        Routine::Library(Library::Memcpy),
        Routine::Library(Library::Memset),
        Routine::Library(Library::Strcmp),
        Routine::Library(Library::Strcpy),
        Routine::Library(Library::Putchar),
        Routine::Library(Library::Strlen),
        Routine::Library(Library::Printf),
        Routine::Tos(TosOp::Add, Width::Ax),
        Routine::Tos(TosOp::Sub, Width::Ax),
        Routine::Tos(TosOp::Mul, Width::Ax),
        Routine::Tos(TosOp::And, Width::Ax),
        Routine::Tos(TosOp::Or, Width::Ax),
        Routine::Tos(TosOp::Xor, Width::Ax),
        Routine::Tos(TosOp::Div, Width::Ax),
        Routine::Tos(TosOp::Mod, Width::Ax),
        Routine::Tos(TosOp::UDiv, Width::Ax),
        Routine::Tos(TosOp::UMod, Width::Ax),
        Routine::Tos(TosOp::Shl, Width::Ax),
        Routine::Tos(TosOp::Shr, Width::Ax),
        Routine::Tos(TosOp::Asr, Width::Ax),
        Routine::Tos(TosOp::Eq, Width::Ax),
        Routine::Tos(TosOp::Ne, Width::Ax),
        Routine::Tos(TosOp::Lt, Width::Ax),
        Routine::Tos(TosOp::Le, Width::Ax),
        Routine::Tos(TosOp::Gt, Width::Ax),
        Routine::Tos(TosOp::Ge, Width::Ax),
        Routine::Tos(TosOp::ULt, Width::Ax),
        Routine::Tos(TosOp::ULe, Width::Ax),
        Routine::Tos(TosOp::UGt, Width::Ax),
        Routine::Tos(TosOp::UGe, Width::Ax),
        Routine::Tos(TosOp::Add, Width::Eax),
        Routine::Tos(TosOp::Sub, Width::Eax),
        Routine::Tos(TosOp::Mul, Width::Eax),
        Routine::Tos(TosOp::And, Width::Eax),
        Routine::Tos(TosOp::Or, Width::Eax),
        Routine::Tos(TosOp::Xor, Width::Eax),
        Routine::Tos(TosOp::Div, Width::Eax),
        Routine::Tos(TosOp::Mod, Width::Eax),
        Routine::Tos(TosOp::UDiv, Width::Eax),
        Routine::Tos(TosOp::UMod, Width::Eax),
        Routine::Tos(TosOp::Shl, Width::Eax),
        Routine::Tos(TosOp::Shr, Width::Eax),
        Routine::Tos(TosOp::Asr, Width::Eax),
        Routine::Tos(TosOp::Eq, Width::Eax),
        Routine::Tos(TosOp::Ne, Width::Eax),
        Routine::Tos(TosOp::Lt, Width::Eax),
        Routine::Tos(TosOp::Le, Width::Eax),
        Routine::Tos(TosOp::Gt, Width::Eax),
        Routine::Tos(TosOp::Ge, Width::Eax),
        Routine::Tos(TosOp::ULt, Width::Eax),
        Routine::Tos(TosOp::ULe, Width::Eax),
        Routine::Tos(TosOp::UGt, Width::Eax),
        Routine::Tos(TosOp::UGe, Width::Eax),
        Routine::PushA,
        Routine::PushAx,
        Routine::PushA0,
        Routine::Push0,
        Routine::PushEax,
        Routine::PopA,
        Routine::PopAx,
        Routine::PopEax,
        Routine::PopPtrs,
        Routine::IncSp(Count::One),
        Routine::IncSp(Count::Two),
        Routine::IncSp(Count::Three),
        Routine::IncSp(Count::Four),
        Routine::IncSp(Count::Five),
        Routine::IncSp(Count::Six),
        Routine::IncSp(Count::Seven),
        Routine::IncSp(Count::Eight),
        Routine::DecSp(Count::One),
        Routine::DecSp(Count::Two),
        Routine::DecSp(Count::Three),
        Routine::DecSp(Count::Four),
        Routine::DecSp(Count::Five),
        Routine::DecSp(Count::Six),
        Routine::DecSp(Count::Seven),
        Routine::DecSp(Count::Eight),
        Routine::AddYSp,
        Routine::SubYSp,
        Routine::LdAxYSp,
        Routine::LdAx0Sp,
        Routine::LdEaxYSp,
        Routine::StAxYSp,
        Routine::StAx0Sp,
        Routine::StEaxYSp,
        Routine::LdAi,
        Routine::LdAxi,
        Routine::LdEaxi,
        Routine::StATos,
        Routine::StAxTos,
        Routine::StEaxTos,
        Routine::CopyTos,
        Routine::Unary(UnaryRoutine::Neg, Width::Ax),
        Routine::Unary(UnaryRoutine::Compl, Width::Ax),
        Routine::Unary(UnaryRoutine::Shl1, Width::Ax),
        Routine::Unary(UnaryRoutine::Shr1, Width::Ax),
        Routine::Unary(UnaryRoutine::Asr1, Width::Ax),
        Routine::Unary(UnaryRoutine::BNeg, Width::Ax),
        Routine::Unary(UnaryRoutine::Neg, Width::Eax),
        Routine::Unary(UnaryRoutine::Compl, Width::Eax),
        Routine::Unary(UnaryRoutine::Shl1, Width::Eax),
        Routine::Unary(UnaryRoutine::Shr1, Width::Eax),
        Routine::Unary(UnaryRoutine::Asr1, Width::Eax),
        Routine::Unary(UnaryRoutine::BNeg, Width::Eax),
        Routine::SignA,
        Routine::LongAx,
        Routine::ULongAx,
        Routine::SaveRegs,
        Routine::RestRegs,
        Routine::CallPtr4,
        Routine::StkChk,
        Routine::HookOpen,
        Routine::HookClose,
        Routine::HookRead,
        Routine::HookWrite,
        Routine::HookArgs,
        Routine::HookExit,
    ];

    /// The routine's name in assembly text.
    pub fn name(self) -> &'static [u8]
        ensures { result.now ≡ name_of self }
    {
        match self {
            Routine::PushA => b"pusha",
            Routine::PushAx => b"pushax",
            Routine::PushA0 => b"pusha0",
            Routine::Push0 => b"push0",
            Routine::PushEax => b"pusheax",
            Routine::PopA => b"popa",
            Routine::PopAx => b"popax",
            Routine::PopEax => b"popeax",
            Routine::PopPtrs => b"popptrs",
            Routine::IncSp(count) => raise_name(count),
            Routine::DecSp(count) => lower_name(count),
            Routine::AddYSp => b"addysp",
            Routine::SubYSp => b"subysp",
            Routine::LdAxYSp => b"ldaxysp",
            Routine::LdAx0Sp => b"ldax0sp",
            Routine::LdEaxYSp => b"ldeaxysp",
            Routine::StAxYSp => b"staxysp",
            Routine::StAx0Sp => b"stax0sp",
            Routine::StEaxYSp => b"steaxysp",
            Routine::LdAi => b"ldai",
            Routine::LdAxi => b"ldaxi",
            Routine::LdEaxi => b"ldeaxi",
            Routine::StATos => b"statos",
            Routine::StAxTos => b"staxtos",
            Routine::StEaxTos => b"steaxtos",
            Routine::CopyTos => b"copytos",
            Routine::Tos(op, Width::Ax) => word_name(op),
            Routine::Tos(op, Width::Eax) => long_name(op),
            Routine::Unary(op, width) => unary_name(op, width),
            Routine::SignA => b"signa",
            Routine::LongAx => b"longax",
            Routine::ULongAx => b"ulongax",
            Routine::SaveRegs => b"saveregs",
            Routine::RestRegs => b"restregs",
            Routine::CallPtr4 => b"callptr4",
            Routine::StkChk => b"stkchk",
            Routine::Start => b"start",
            Routine::StartArgs => b"startargs",
            Routine::Library(function) => function.name(),
            Routine::HookOpen => b"hookopen",
            Routine::HookClose => b"hookclose",
            Routine::HookRead => b"hookread",
            Routine::HookWrite => b"hookwrite",
            Routine::HookArgs => b"hookargs",
            Routine::HookExit => b"hookexit",
        }
    }

    /// The routine of this name; none exactly where no routine has it.
    pub fn by_name(name: &[u8]) -> Option<Routine>
        ensures named { IfSome result (λ r. name_of r ≡ name.now) }
        ensures found { (r : Routine) → name_of r ≡ name.now → result ≡ Some r }
    {
        match among(&Routine::ALL[likely_places(name)], name) {
            Some(routine) => Some(routine),
            None => among(&Routine::ALL, name),
        }
    }

    /// The routine's place in `ALL`.
    pub fn number(self) -> usize
        ensures value { result ≡ number_of self }
        ensures small { result < 123 }
    {
        match self {
            Routine::Start => 0,
            Routine::StartArgs => 1,
            Routine::Library(function) => 2 + library_number(function),
            Routine::Tos(op, Width::Ax) => 12 + op as usize,
            Routine::Tos(op, Width::Eax) => 35 + op as usize,
            Routine::PushA => 58,
            Routine::PushAx => 59,
            Routine::PushA0 => 60,
            Routine::Push0 => 61,
            Routine::PushEax => 62,
            Routine::PopA => 63,
            Routine::PopAx => 64,
            Routine::PopEax => 65,
            Routine::PopPtrs => 66,
            Routine::IncSp(count) => 67 + count as usize,
            Routine::DecSp(count) => 75 + count as usize,
            Routine::AddYSp => 83,
            Routine::SubYSp => 84,
            Routine::LdAxYSp => 85,
            Routine::LdAx0Sp => 86,
            Routine::LdEaxYSp => 87,
            Routine::StAxYSp => 88,
            Routine::StAx0Sp => 89,
            Routine::StEaxYSp => 90,
            Routine::LdAi => 91,
            Routine::LdAxi => 92,
            Routine::LdEaxi => 93,
            Routine::StATos => 94,
            Routine::StAxTos => 95,
            Routine::StEaxTos => 96,
            Routine::CopyTos => 97,
            Routine::Unary(op, Width::Ax) => 98 + op as usize,
            Routine::Unary(op, Width::Eax) => 104 + op as usize,
            Routine::SignA => 110,
            Routine::LongAx => 111,
            Routine::ULongAx => 112,
            Routine::SaveRegs => 113,
            Routine::RestRegs => 114,
            Routine::CallPtr4 => 115,
            Routine::StkChk => 116,
            Routine::HookOpen => 117,
            Routine::HookClose => 118,
            Routine::HookRead => 119,
            Routine::HookWrite => 120,
            Routine::HookArgs => 121,
            Routine::HookExit => 122,
        }
    }
}

fn raise_name(count: Count) -> &'static [u8]
    ensures { result.now ≡ name_of (Routine.IncSp count) }
{
    match count {
        Count::One => b"incsp1",
        Count::Two => b"incsp2",
        Count::Three => b"incsp3",
        Count::Four => b"incsp4",
        Count::Five => b"incsp5",
        Count::Six => b"incsp6",
        Count::Seven => b"incsp7",
        Count::Eight => b"incsp8",
    }
}

fn lower_name(count: Count) -> &'static [u8]
    ensures { result.now ≡ name_of (Routine.DecSp count) }
{
    match count {
        Count::One => b"decsp1",
        Count::Two => b"decsp2",
        Count::Three => b"decsp3",
        Count::Four => b"decsp4",
        Count::Five => b"decsp5",
        Count::Six => b"decsp6",
        Count::Seven => b"decsp7",
        Count::Eight => b"decsp8",
    }
}

fn word_name(op: TosOp) -> &'static [u8]
    ensures { result.now ≡ word_name_of op }
{
    match op {
        TosOp::Add => b"tosaddax",
        TosOp::Sub => b"tossubax",
        TosOp::Mul => b"tosmulax",
        TosOp::And => b"tosandax",
        TosOp::Or => b"tosorax",
        TosOp::Xor => b"tosxorax",
        TosOp::Div => b"tosdivax",
        TosOp::Mod => b"tosmodax",
        TosOp::UDiv => b"tosudivax",
        TosOp::UMod => b"tosumodax",
        TosOp::Shl => b"tosshlax",
        TosOp::Shr => b"tosshrax",
        TosOp::Asr => b"tosasrax",
        TosOp::Eq => b"toseqax",
        TosOp::Ne => b"tosneax",
        TosOp::Lt => b"tosltax",
        TosOp::Le => b"tosleax",
        TosOp::Gt => b"tosgtax",
        TosOp::Ge => b"tosgeax",
        TosOp::ULt => b"tosultax",
        TosOp::ULe => b"tosuleax",
        TosOp::UGt => b"tosugtax",
        TosOp::UGe => b"tosugeax",
    }
}

fn long_name(op: TosOp) -> &'static [u8]
    ensures { result.now ≡ long_name_of op }
{
    match op {
        TosOp::Add => b"tosaddeax",
        TosOp::Sub => b"tossubeax",
        TosOp::Mul => b"tosmuleax",
        TosOp::And => b"tosandeax",
        TosOp::Or => b"tosoreax",
        TosOp::Xor => b"tosxoreax",
        TosOp::Div => b"tosdiveax",
        TosOp::Mod => b"tosmodeax",
        TosOp::UDiv => b"tosudiveax",
        TosOp::UMod => b"tosumodeax",
        TosOp::Shl => b"tosshleax",
        TosOp::Shr => b"tosshreax",
        TosOp::Asr => b"tosasreax",
        TosOp::Eq => b"toseqeax",
        TosOp::Ne => b"tosneeax",
        TosOp::Lt => b"toslteax",
        TosOp::Le => b"tosleeax",
        TosOp::Gt => b"tosgteax",
        TosOp::Ge => b"tosgeeax",
        TosOp::ULt => b"tosulteax",
        TosOp::ULe => b"tosuleeax",
        TosOp::UGt => b"tosugteax",
        TosOp::UGe => b"tosugeeax",
    }
}

fn unary_name(op: UnaryRoutine, width: Width) -> &'static [u8]
    ensures { result.now ≡ unary_name_of op width }
{
    match (op, width) {
        (UnaryRoutine::Neg, Width::Ax) => b"negax",
        (UnaryRoutine::Neg, Width::Eax) => b"negeax",
        (UnaryRoutine::Compl, Width::Ax) => b"complax",
        (UnaryRoutine::Compl, Width::Eax) => b"compleax",
        (UnaryRoutine::Shl1, Width::Ax) => b"shlax1",
        (UnaryRoutine::Shl1, Width::Eax) => b"shleax1",
        (UnaryRoutine::Shr1, Width::Ax) => b"shrax1",
        (UnaryRoutine::Shr1, Width::Eax) => b"shreax1",
        (UnaryRoutine::Asr1, Width::Ax) => b"asrax1",
        (UnaryRoutine::Asr1, Width::Eax) => b"asreax1",
        (UnaryRoutine::BNeg, Width::Ax) => b"bnegax",
        (UnaryRoutine::BNeg, Width::Eax) => b"bnegeax",
    }
}

fn among(routines: &[Routine], name: &[u8]) -> Option<Routine>
    ensures { result ≡ found_in routines.now name.now }
{
    for routine in routines {
        if routine.name() == name {
            return Some(*routine);
        }
    }
    None
}

// Where most routines stand whose names begin like this one.
fn likely_places(name: &[u8]) -> Range<usize>
    ensures order { result.start ≤ result.end }
    ensures end { result.end ≤ 123 }
{
    match name.first() {
        Some(b'p') => 58..67,
        Some(b'i') => 67..75,
        Some(b'd') => 75..83,
        Some(b'l') => 85..94,
        Some(b's') => 88..97,
        Some(b't') => 12..58,
        Some(b'a' | b'b' | b'c' | b'n') => 98..116,
        _ => 0..0,
    }
}

// puts calls putchar and strlen.
fn library_number(function: Library) -> usize
    ensures { result ≡ library_number function }
{
    match function {
        Library::Puts => 0,
        Library::Getchar => 1,
        Library::Exit => 2,
        Library::Memcpy => 3,
        Library::Memset => 4,
        Library::Strcmp => 5,
        Library::Strcpy => 6,
        Library::Putchar => 7,
        Library::Strlen => 8,
        Library::Printf => 9,
    }
}
