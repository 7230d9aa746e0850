// The numbers of the standard streams.
use std::fs::File;
use std::os::fd::AsRawFd;
use std::rt::Files;

// The number of standard error, the last of the three.
const LAST: i32 = 2;

/// `/dev/null`, open for reading alone, under the number of each standard stream with which the program wasn't started: else a
/// file that is opened gets that number, and what is printed is written into it. To such a stream nothing can be printed.
#[derive(Drop)]
pub(crate) struct Streams {
    first: Option<File>,
    second: Option<File>,
    third: Option<File>,
}

// It is kept where it got the number of a stream: the lowest that is free.
fn kept<R: Files<File = File>>(rt: &R) -> Option<File> {
    match File::open(rt, "/dev/null") {
        Ok(file) if file.as_raw_fd() <= LAST => Some(file),
        _ => None,
    }
}

impl Streams {
    /// None of these numbers is free then.
    pub(crate) fn taken<R: Files<File = File>>(rt: &R) -> Streams {
        let first = kept(rt);
        let second = if first.is_some() { kept(rt) } else { None };
        let third = if second.is_some() { kept(rt) } else { None };
        Streams {
            first,
            second,
            third,
        }
    }
}
