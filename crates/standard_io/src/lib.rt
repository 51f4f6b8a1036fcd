// Standard input and standard output of a program. A call of the system's that was interrupted is made again; any other failure goes to
// the caller, and a program ends with a line on standard error that says what failed and why (`Failure::tell`). What a call reads or
// writes is the system's: no contract speaks of it.
#![tactic(auto)]

ghost use Rattle.std.specs.Prelude.{◌≡◌, ◌≤◌, ◌<◌, length, IfOk};

use std::error::Error;
use std::io::{Cursor, ErrorKind, Read, Write};
use std::{fmt, io};

// A proved loop has to end, and nothing says that interruptions do: a call is made again as often as this, a number that no run
// uses up.
const TRIES: u64 = 9007199254740992;

// How many bytes were read, where no read failed. There was room for some, so that none says that the input has ended. The field is this
// crate's own, so that no other makes one up.
#[derive(Clone, Copy)]
pub struct Received {
    count: usize,
}

impl Received {
    pub fn count(self) -> usize
        ensures { result ≡ self.count }
    {
        self.count
    }
}

// What failed, and the system's reason.
#[derive(Clone, Copy, Debug)]
pub enum Failure {
    Reading(io::Error),
    Writing(io::Error),
}

impl Failure {
    // What was being done, and the system's reason.
    fn parts(self) -> (&'static str, Reason) {
        match self {
            Failure::Reading(error) => ("reading standard input", Reason(error)),
            Failure::Writing(error) => ("writing standard output", Reason(error)),
        }
    }

    // Tells of the failure on standard error: a line behind the program's name. Each piece of it is tried, also where standard error
    // did not take one before it; where it takes none, nothing is left to say so on. (A program's name has at most 39 bytes.)
    pub fn tell(self, rt: &HostRuntime, program: &str) {
        let (doing, reason) = self.parts();
        let mut begun = Cursor::new([0; 64]);
        let _ = write!(begun, "{program}: {doing}");
        let end = (begun.position() as usize).min(64);
        let _ = Write::write_all(&mut rt.stderr(), &begun.get_ref()[..end]);
        let _ = Write::write_all(&mut rt.stderr(), b": ");
        let _ = write!(rt.stderr(), "{reason}");
        let _ = Write::write_all(&mut rt.stderr(), b"\n");
    }
}

impl fmt::Display for Failure {
    fn fmt<W: fmt::Write>(&self, f: &mut fmt::Formatter<W>) -> fmt::Result {
        let (doing, reason) = self.parts();
        write!(f, "{doing}: {reason}")
    }
}

impl Error for Failure {}

// An error as its reason alone. std puts the error's number behind a reason of the system's, in brackets.
#[derive(Clone, Copy)]
struct Reason(io::Error);

impl fmt::Display for Reason {
    fn fmt<W: fmt::Write>(&self, f: &mut fmt::Formatter<W>) -> fmt::Result {
        let mut told = Cursor::new([0; 256]);
        let _ = write!(told, "{}", self.0);
        let end = (told.position() as usize).min(256);
        let text = std::str::from_utf8(&told.get_ref()[..end]).unwrap_or("");
        match text.rsplit_once(" (os error ") {
            Some((reason, _)) => f.write_str(reason),
            None => f.write_str(text),
        }
    }
}

// Reads once. There is room for a byte, so that nothing comes only where the input has ended.
pub fn receive(rt: &HostRuntime, room: &mut [u8]) -> Result<Received, Failure>
    requires { 0 < length room.old }
    ensures { IfOk result (λ received. received.count ≤ length room.new) }
{
    for _ in 0..TRIES {
        match rt.stdin().read(room) {
            Ok(count) => return Ok(Received { count }),
            Err(error) => {
                if error.kind() != ErrorKind::Interrupted {
                    return Err(Failure::Reading(error));
                }
            }
        }
    }
    Err(Failure::Reading(io::Error::from(ErrorKind::Interrupted)))
}

// Reads until the buffer, which has room, is full or the input ends. A plain loop: how far a turn goes is what its read brings. std's
// `read_exact` doesn't say how many bytes came before the end, and `read_to_end` keeps them on the heap.
pub fn receive_all(rt: &HostRuntime, buffer: &mut [u8]) -> Result<Received, Failure>
    requires { 0 < length buffer.old }
    ensures { IfOk result (λ received. received.count ≤ length buffer.new) }
{
    let mut count = 0;
    while count < buffer.len() {
        let came = receive(rt, &mut buffer[count..])?.count;
        if came == 0 {
            break;
        }
        count += came;
    }
    Ok(Received { count })
}

// Writes all the bytes. (The method that std's printing has under that name gives up after some interruptions.)
pub fn put_all(rt: &HostRuntime, bytes: &[u8]) -> Result<(), Failure> {
    Write::write_all(&mut rt.stdout(), bytes).map_err(Failure::Writing)
}
