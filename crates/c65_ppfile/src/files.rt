// Reading files, and seeking the file of an #include.
ghost use Rattle.std.specs.Prelude.{◌≡◌, ◌∷◌, ◌++◌, [], map, None, IfOk, OnOk, if◌then◌else◌};
ghost use Rattle.c65_ppfile.specs.Counts.{Serves, MissedAll, outside};
ghost use Rattle.c65_ppfile.specs.Finding.{Opens, Finds, Seeks, ReadsMain, header_of};
ghost use Rattle.c65_ppfile.specs.Headers.{built_in_of};
ghost use Rattle.c65_ppfile.specs.Search;

use crate::headers::{BuiltIn, find_built_in};
use crate::include::Header;
use c65_base::{Refusal, Text};
use c65_io::{FileFault, Files};
use std::alloc::{AllocError, Global};

const PIECE: usize = 4_096;

/// Reads the first bytes of a file; None where it is missing.
fn begin<F: Files>(
    alloc: Global,
    files: &mut F,
    folders: &[Text],
    path: &[u8],
) -> Result<Option<Vec<u8>>, Refusal>
    ensures serves { Serves folders.now (outside (F.contents files.old) (F.write_faults files.old) (F.faults files.old) (F.misses files.old))
        (outside (F.contents files.new) (F.write_faults files.new) (F.faults files.new) (F.misses files.new)) result }
    ensures missed { MissedAll (path.now ∷ []) (F.misses files.old) (F.misses files.new) result }
    ensures opens { Opens (λ front. front.items) (F.contents files.old) path.now result }
{
    let _ = folders;
    let mut piece = [0u8; PIECE];
    match files.read(path, 0, &mut piece) {
        Ok(count) => match Vec::from_slice(alloc, &piece[..count]) {
            Ok(text) => Ok(Some(text)),
            Err(_) => Err(Refusal::OutOfMemory),
        },
        Err(FileFault::Missing) => Ok(None),
        Err(FileFault::Failed) => Err(Refusal::ReadFault),
    }
}

/// The folder of a path with its /, or nothing where the path has none.
fn folder_of(path: &[u8]) -> &[u8]
    ensures { result.now ≡ Search.folder_of path.now }
{
    let mut count = 0;
    for (at, byte) in path.iter().enumerate() {
        if *byte == b'/' {
            count = at + 1;
        }
    }
    &path[..count]
}

fn is_rooted(name: &[u8]) -> bool
    ensures { result ≡ Search.is_rooted name.now }
{
    match name.split_first() {
        Some((first, _)) => *first == b'/',
        None => false,
    }
}

/// A folder with its / and a name.
fn beside(alloc: Global, folder: &[u8], name: &[u8]) -> Result<Text, AllocError>
    ensures { IfOk result (λ path. path ≡ folder.now ++ name.now) }
{
    let mut path = Vec::from_slice(alloc, folder)?;
    path.extend_from_slice(name)?;
    Ok(Text::from_vec(path))
}

/// A folder and a name, joined by one /.
fn in_folder(alloc: Global, folder: &[u8], name: &[u8]) -> Result<Text, AllocError>
    ensures { IfOk result (λ path. path ≡ Search.in_folder name.now folder.now) }
{
    let mut path = Vec::from_slice(alloc, folder)?;
    path.push(b'/')?;
    path.extend_from_slice(name)?;
    Ok(Text::from_vec(path))
}

/// Adds the paths of a name in each of the folders.
fn add_folders(
    alloc: Global,
    paths: &mut Vec<Text>,
    folders: &[Text],
    name: &[u8],
) -> Result<(), AllocError>
    ensures { OnOk result (paths.new.items ≡ paths.old.items ++ map (Search.in_folder name.now) folders.now) }
{
    let mut rest = folders;
    while let Some((folder, more)) = rest.split_first() {
        paths.push(in_folder(alloc, folder.as_slice(), name)?)?;
        rest = more;
    }
    Ok(())
}

/// The paths under which a file is sought, in their order.
fn places(
    alloc: Global,
    including: &[u8],
    folders: &[Text],
    is_quoted: bool,
    name: &[u8],
) -> Result<Vec<Text>, AllocError>
    ensures { IfOk result (λ paths. paths.items ≡ Search.paths_of including.now folders.now is_quoted name.now) }
{
    let mut paths = Vec::new(alloc);
    if is_rooted(name) {
        paths.push(Text::copy_of(alloc, name)?)?;
        return Ok(paths);
    }
    if is_quoted {
        paths.push(beside(alloc, folder_of(including), name)?)?;
    }
    add_folders(alloc, &mut paths, folders, name)?;
    Ok(paths)
}

/// A file that was found, or a header that is built in.
#[derive(Drop)]
pub enum Found {
    /// Its path, its first bytes, and the name by which it is missing.
    File(Text, Vec<u8>, Text),
    BuiltIn(BuiltIn),
}

/// A path under which a file is there, and its first bytes.
#[derive(Drop)]
struct First {
    path: Text,
    bytes: Vec<u8>,
}

/// The first of the paths under which a file is there.
fn find_first<F: Files>(
    alloc: Global,
    files: &mut F,
    folders: &[Text],
    paths: &[Text],
) -> Result<Option<First>, Refusal>
    ensures serves { Serves folders.now (outside (F.contents files.old) (F.write_faults files.old) (F.faults files.old) (F.misses files.old))
        (outside (F.contents files.new) (F.write_faults files.new) (F.faults files.new) (F.misses files.new)) result }
    ensures missed { MissedAll paths.now (F.misses files.old) (F.misses files.new) result }
    ensures finds { Finds (λ file. (file.path, file.bytes.items)) (F.contents files.old) paths.now result }
{
    for path in paths {
        match begin(alloc, files, folders, path.as_slice()) {
            Ok(Some(bytes)) => match path.copy(alloc) {
                Ok(path) => return Ok(Some(First { path, bytes })),
                Err(_) => return Err(Refusal::OutOfMemory),
            },
            Ok(None) => {}
            Err(refusal) => return Err(refusal),
        }
    }
    Ok(None)
}

/// The built-in header of a name; none of a name that begins with /.
fn built_in(name: &[u8]) -> Option<BuiltIn>
    ensures { result ≡ header_of name.now }
{
    if is_rooted(name) {
        None
    } else {
        find_built_in(name)
    }
}

/// Seeks the file of an #include in a file of this path: under the paths of the search, then among the headers that are built
/// in.
pub fn seek<F: Files>(
    alloc: Global,
    files: &mut F,
    folders: &[Text],
    including: &[u8],
    header: Header,
) -> Result<Found, Refusal>
    ensures serves { Serves folders.now (outside (F.contents files.old) (F.write_faults files.old) (F.faults files.old) (F.misses files.old))
        (outside (F.contents files.new) (F.write_faults files.new) (F.faults files.new) (F.misses files.new)) result }
    ensures seeks { Seeks (F.contents files.old) including.now folders.now header result }
{
    let Header { name, is_quoted } = header;
    let Ok(paths) = places(alloc, including, folders, is_quoted, name.as_slice()) else {
        return Err(Refusal::OutOfMemory);
    };
    match find_first(alloc, files, folders, &paths) {
        Ok(Some(first)) => Ok(Found::File(first.path, first.bytes, name)),
        Ok(None) => match built_in(name.as_slice()) {
            Some(header) => Ok(Found::BuiltIn(header)),
            None => Err(Refusal::Missing { path: name }),
        },
        Err(refusal) => Err(refusal),
    }
}

/// The first bytes of a unit's own file.
pub fn begin_main<F: Files>(
    alloc: Global,
    files: &mut F,
    folders: &[Text],
    path: &Text,
) -> Result<Vec<u8>, Refusal>
    ensures serves { Serves folders.now (outside (F.contents files.old) (F.write_faults files.old) (F.faults files.old) (F.misses files.old))
        (outside (F.contents files.new) (F.write_faults files.new) (F.faults files.new) (F.misses files.new)) result }
    ensures reads { ReadsMain (λ front. front.items) (F.contents files.old) path.now result }
{
    match begin(alloc, files, folders, path.as_slice()) {
        Ok(Some(first)) => Ok(first),
        Ok(None) => match path.copy(alloc) {
            Ok(path) => Err(Refusal::Missing { path }),
            Err(_) => Err(Refusal::OutOfMemory),
        },
        Err(refusal) => Err(refusal),
    }
}
