// Files. What fails is told, but for an open file's reading and writing.
ghost use Rattle.std.specs.Prelude.{◌≤◌, length as length_of, IfOk, IfSome};

use crate::arguments::Word;
use crate::tell;
use std::fs::{OpenFile, OpenOptions};
use std::io::{ErrorKind, Read, Seek, SeekFrom};
use std::rt::{Env, Files};
use std::{fs, io};

// The most bytes of a box, of auxiliary data and of a key record.
pub const LONGEST: usize = 4096;

// Reads until the buffer is full or the file ends, and answers how many bytes it read.
pub(crate) fn fill(file: &mut impl Read, buffer: &mut [u8]) -> io::Result<usize>
    ensures { IfOk result (λ count. count ≤ length_of buffer.old) }
{
    let mut count = 0;
    // A `while`: each reading says how far it came.
    while count < buffer.len() {
        let read = file.read(&mut buffer[count..])?;
        if read == 0 {
            break;
        }
        count += read;
    }
    Ok(count)
}

// A name as std takes it.
fn path(name: &[u8]) -> io::Result<&str> {
    str::from_utf8(name).map_err(|_| io::Error::new(
        ErrorKind::InvalidInput,
        "the name is not UTF-8",
    ))
}

// Opens a file for reading.
fn open<R: Files>(rt: &R, name: &[u8]) -> io::Result<R::File> {
    fs::open(rt, path(name)?)
}

// Opens a sample that is a file, and answers its length too.
pub(crate) fn open_sample<R: Files>(rt: &R, name: &[u8]) -> io::Result<(R::File, usize)> {
    let mut file = open(rt, name)?;
    let length = length(&mut file)?;
    Ok((file, length))
}

// Reads a short file whole, into a buffer with room for a byte more.
fn read_whole<'a, R: Files>(rt: &R, name: &[u8], buffer: &'a mut [u8]) -> io::Result<&'a [u8]>
    ensures { IfOk result (λ bytes. length_of bytes.now ≤ length_of buffer.old) }
{
    let mut file = open(rt, name)?;
    let count = fill(&mut file, buffer)?;
    Ok(&buffer[..count])
}

// The same of the file that an argument names. None if it could not be read or is too long.
pub(crate) fn contents<'a, R: Files + Env + Print + Eprint>(
    rt: &R,
    place: usize,
    buffer: &'a mut [u8; LONGEST + 1],
) -> Option<&'a [u8]>
    ensures { IfSome result (λ bytes. length_of bytes.now ≤ 4096) }
{
    let word = Word::read(rt, place);
    let name = word.bytes();
    match read_whole(rt, name, buffer) {
        Ok(bytes) if bytes.len() <= LONGEST => Some(bytes),
        Ok(_) => {
            tell::about(rt, name, "is longer than 4096 bytes");
            None
        }
        Err(error) => {
            tell::cannot(rt, "read", name, error);
            None
        }
    }
}

// The length of an open file whose reading has not begun. A folder fails at the first reading.
fn length(file: &mut (impl Read + Seek)) -> io::Result<usize> {
    file.read(&mut [])?;
    let end = file.seek(SeekFrom::End(0))?;
    file.seek(SeekFrom::Start(0))?;
    Ok(end as usize)
}

// Makes a file for writing, if none is there.
pub(crate) fn create<R: Files>(rt: &R, name: &[u8]) -> io::Result<R::File> {
    OpenOptions::new()
        .write(true)
        .create_new(true)
        .open(rt, path(name)?)
}

// Closes a file that was written, once its bytes have reached the device; answers whether they have. What failed was told, so a bool
// is enough.
pub(crate) fn finish<R: Files + Env + Print + Eprint>(rt: &R, file: R::File, name: &[u8]) -> bool {
    match file.sync_all() {
        Ok(()) => true,
        Err(error) => {
            tell::cannot(rt, "write", name, error);
            false
        }
    }
}

// Removes a file.
pub(crate) fn remove<R: Files + Env + Print + Eprint>(rt: &R, name: &[u8]) {
    if let Err(error) = remove_named(rt, name) {
        tell::cannot(rt, "remove", name, error);
    }
}

fn remove_named(files: &impl Files, name: &[u8]) -> io::Result<()> {
    fs::remove_file(files, path(name)?)
}
