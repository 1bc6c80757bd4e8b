// The files that arguments name.
use programs::{argument_count, fail};
use std::env::FillError;
use std::rt::{Env, Files};
use std::{fs, io, str};

// The most bytes of a path.
const PATH: usize = 4096;

// Writes argument i, and opens the file that it names. None: it cannot be opened, and standard error says why.
fn open<R: Env + Files + Print + Eprint>(rt: &R, i: usize) -> io::Result<Option<R::File>> {
    let mut path = [0u8; PATH];
    let n = match rt.arg(i, &mut path) {
        Ok(n) => n,
        Err(FillError::TooLong) => path.len(),
        Err(FillError::NotPresent) => 0,
    };
    rt.write_all(&path[..n])?;
    rt.write_all(b"\n")?;
    let Ok(name) = str::from_utf8(&path[..n]) else {
        let error = io::Error::from(io::ErrorKind::InvalidInput);
        fail(rt, "a path that is not UTF-8", error)?;
        return Ok(None);
    };
    match fs::open(rt, name) {
        Ok(file) => Ok(Some(file)),
        Err(error) => {
            fail(rt, name, error)?;
            Ok(None)
        }
    }
}

// Runs `case` on each argument's index and the file that it names, in their order; a file that cannot be opened is passed over.
pub fn each<R: Env + Files + Print + Eprint, F: FnMut(usize, R::File) -> io::Result<()>>(
    rt: &R,
    mut case: F,
) -> io::Result<()>
    requires { F.IsAlwaysCallable case }
{
    for i in 1..argument_count(rt) {
        if let Some(file) = open(rt, i)? {
            case(i, file)?;
        }
    }
    Ok(())
}
