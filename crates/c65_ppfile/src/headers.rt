// The headers that are built in. A header gives its declarations once in a unit.
ghost use Rattle.std.specs.Prelude.{◌≡◌, ◌≤◌, [], length, find, bytes_eq, IfOk, OnOk};
ghost use Rattle.c65_ppfile.specs.Headers;

use std::alloc::{AllocError, Global};

/// The built-in headers.
#[derive(Clone, Copy)]
pub enum BuiltIn {
    Stdio,
    Stdlib,
    Strings,
    Stddef,
    Limits,
    Stdint,
    Stdarg,
}

const ALL: [BuiltIn; 7] = [
    BuiltIn::Stdio,
    BuiltIn::Stdlib,
    BuiltIn::Strings,
    BuiltIn::Stddef,
    BuiltIn::Limits,
    BuiltIn::Stdint,
    BuiltIn::Stdarg,
];

const SIZE: &[u8] = b"typedef unsigned int size_t;\n";

const STDIO: &[u8] = b"#define EOF (-1)
int putchar(int);
int getchar(void);
int puts(const char *);
int printf(const char *, ...);
";

const STDLIB: &[u8] = b"#define NULL ((void*)0)
#define EXIT_SUCCESS 0
#define EXIT_FAILURE 1
void exit(int);
";

const STRINGS: &[u8] = b"#define NULL ((void*)0)
void *memcpy(void *, const void *, size_t);
void *memset(void *, int, size_t);
int strcmp(const char *, const char *);
char *strcpy(char *, const char *);
size_t strlen(const char *);
";

const STDDEF: &[u8] = b"#define NULL ((void*)0)
typedef int ptrdiff_t;
";

const LIMITS: &[u8] = b"#define CHAR_BIT 8
#define SCHAR_MIN (-128)
#define SCHAR_MAX 127
#define UCHAR_MAX 255
#define MB_LEN_MAX 1
#define SHRT_MIN (-32767-1)
#define SHRT_MAX 32767
#define USHRT_MAX 65535U
#define INT_MIN (-32767-1)
#define INT_MAX 32767
#define UINT_MAX 65535U
#define LONG_MIN (-2147483647L-1L)
#define LONG_MAX 2147483647L
#define ULONG_MAX 4294967295UL
";

const PLAIN_UNSIGNED: &[u8] = b"#define CHAR_MIN 0
#define CHAR_MAX 255
";

const PLAIN_SIGNED: &[u8] = b"#define CHAR_MIN (-128)
#define CHAR_MAX 127
";

const STDINT: &[u8] = b"typedef signed char int8_t;
typedef unsigned char uint8_t;
typedef int int16_t;
typedef unsigned int uint16_t;
typedef long int32_t;
typedef unsigned long uint32_t;
";

// The further arguments lie below their end, the first one highest (docs/MACHINE.md, "Calls").
const STDARG: &[u8] = b"typedef unsigned char *va_list;
#define va_start(ap,last) ((void)((ap)=__va_rest))
#define va_arg(ap,t) (*(t*)((ap)-=sizeof(t)))
#define va_end(ap) ((void)0)
";

impl BuiltIn {
    /// The header's name between its brackets.
    pub fn name(self) -> &'static [u8]
        ensures { result.now ≡ Headers.name_of self }
    {
        match self {
            BuiltIn::Stdio => b"stdio.h",
            BuiltIn::Stdlib => b"stdlib.h",
            BuiltIn::Strings => b"string.h",
            BuiltIn::Stddef => b"stddef.h",
            BuiltIn::Limits => b"limits.h",
            BuiltIn::Stdint => b"stdint.h",
            BuiltIn::Stdarg => b"stdarg.h",
        }
    }

    /// The name by which a unit's list has it.
    pub fn path(self) -> &'static [u8]
        ensures { result.now ≡ Headers.path_of self }
    {
        match self {
            BuiltIn::Stdio => b"<stdio.h>",
            BuiltIn::Stdlib => b"<stdlib.h>",
            BuiltIn::Strings => b"<string.h>",
            BuiltIn::Stddef => b"<stddef.h>",
            BuiltIn::Limits => b"<limits.h>",
            BuiltIn::Stdint => b"<stdint.h>",
            BuiltIn::Stdarg => b"<stdarg.h>",
        }
    }

    /// Whether it declares `size_t`.
    fn has_size(self) -> bool
        ensures { result ≡ Headers.has_size self }
    {
        match self {
            BuiltIn::Stdlib | BuiltIn::Strings | BuiltIn::Stddef => true,
            BuiltIn::Stdio | BuiltIn::Limits | BuiltIn::Stdint | BuiltIn::Stdarg => false,
        }
    }

    /// What it declares besides `size_t` and the limits of plain char.
    fn text(self) -> &'static [u8]
        ensures { result.now ≡ Headers.text_of self }
    {
        match self {
            BuiltIn::Stdio => STDIO,
            BuiltIn::Stdlib => STDLIB,
            BuiltIn::Strings => STRINGS,
            BuiltIn::Stddef => STDDEF,
            BuiltIn::Limits => LIMITS,
            BuiltIn::Stdint => STDINT,
            BuiltIn::Stdarg => STDARG,
        }
    }
}

fn built_in_among(headers: &[BuiltIn], name: &[u8]) -> Option<BuiltIn>
    ensures { result ≡ find (λ h. bytes_eq (Headers.name_of h) name.now) headers.now }
{
    for header in headers {
        if header.name() == name {
            return Some(*header);
        }
    }
    None
}

/// The built-in header of a name.
pub fn find_built_in(name: &[u8]) -> Option<BuiltIn>
    ensures { result ≡ Headers.built_in_of name.now }
{
    built_in_among(&ALL, name)
}

/// Whether one of these headers declares `size_t`.
fn is_sized(headers: &[BuiltIn]) -> bool
    ensures { result ≡ Headers.is_sized headers.now }
{
    for header in headers {
        if header.has_size() {
            return true;
        }
    }
    false
}

fn size_text(declares: bool) -> &'static [u8]
    ensures { result.now ≡ Headers.size_text declares }
{
    if declares { SIZE } else { b"" }
}

/// The limits of plain char.
fn plain_text(is_char_signed: bool, header: BuiltIn) -> &'static [u8]
    ensures { result.now ≡ Headers.plain_text is_char_signed header }
{
    match header {
        BuiltIn::Limits if is_char_signed => PLAIN_SIGNED,
        BuiltIn::Limits => PLAIN_UNSIGNED,
        _ => b"",
    }
}

/// The built-in headers that a unit has included.
#[derive(Drop)]
pub struct Included {
    headers: Vec<BuiltIn>,
    is_char_signed: bool,
    alloc: Global,
}

impl Included {
    pub fn new(alloc: Global, is_char_signed: bool) -> Included
        ensures none { result.headers.items ≡ [] }
        ensures signed { result.is_char_signed ≡ is_char_signed }
    {
        Included {
            headers: Vec::new(alloc),
            is_char_signed,
            alloc,
        }
    }

    /// The text of a header at its inclusion: nothing from the second one on.
    #[tactic(auto, using(crate::proofs::Short::text_short))]
    pub fn include(&mut self, header: BuiltIn) -> Result<Vec<u8>, AllocError>
        ensures short { IfOk result (λ text. length text.items ≤ 4096) }
        ensures text { IfOk result (λ text. text.items ≡ Headers.text_behind self.old.is_char_signed self.old.headers.items header) }
        ensures headers { OnOk result (self.new.headers.items ≡ Headers.with_header self.old.headers.items header) }
        ensures signed { self.new.is_char_signed ≡ self.old.is_char_signed }
    {
        if built_in_among(&self.headers, header.name()).is_some() {
            return Ok(Vec::new(self.alloc));
        }
        let size = size_text(header.has_size() && !is_sized(&self.headers));
        let mut text = Vec::from_slice(self.alloc, size)?;
        text.extend_from_slice(header.text())?;
        text.extend_from_slice(plain_text(self.is_char_signed, header))?;
        self.headers.push(header)?;
        Ok(text)
    }
}
