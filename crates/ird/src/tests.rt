use crate::ending::exit_status;
use crate::telling::{Failures, complaint};
use crate::words::program_words;
use grid_model::Side;
use grid_outside::Wear;
use grid_server::Status;
use std::env::{Env, FillError};
use std::io::Error;
use std::test::Fail;

// A program with a long word, and one that is no text.
struct TwoWords;

impl Env for TwoWords {
    fn arg(&self, place: usize, buf: &mut [u8]) -> Result<usize, FillError> {
        match place {
            1 if buf.len() < 300 => Err(FillError::TooLong),
            1 => {
                buf[..300].fill(b'a');
                Ok(300)
            }
            2 if buf.len() > 0 => {
                buf[0] = 0xff;
                Ok(1)
            }
            _ => Err(FillError::NotPresent),
        }
    }

    fn var(&self, _name: &str, _buf: &mut [u8]) -> Result<usize, FillError> {
        Err(FillError::NotPresent)
    }

    fn var_at(&self, _place: usize, _buf: &mut [u8]) -> Result<usize, FillError> {
        Err(FillError::NotPresent)
    }
}

#[test]
fn words_are_read_byte_for_byte(rt: HostRuntime) -> Result<(), Fail> {
    let words = program_words(&TwoWords, rt.alloc())?;
    assert!(rt; words.len() == 2);
    assert_eq!(rt; words[0].as_slice().len(), 300);
    assert_eq!(rt; words[1].as_slice(), [0xffu8].as_slice());
    Ok(())
}

// An end with the exit status that it has, and the line that people are told of it.
#[derive(Clone, Copy)]
struct End {
    status: Status,
    exit: u8,
    line: &'static str,
}

const fn told(status: Status, exit: u8, line: &'static str) -> End {
    End { status, exit, line }
}

#[test]
fn each_end_is_told(rt: HostRuntime) -> Result<(), Fail> {
    let side = Side::Main;
    let what = Wear::Log;
    let failures = Failures {
        main: None,
        spare: Some(Error::from_raw_os_error(5)),
        source: Some(Error::from_raw_os_error(21)),
        sink: Some(Error::from_raw_os_error(32)),
    };
    for end in [
        told(Status::Done, 0, ""),
        told(
            Status::Usage,
            2,
            "wrong arguments, or a command that is not built",
        ),
        told(
            Status::NotACatalogue { side, at: 7 },
            3,
            "catalogue.a: no catalogue, as byte 7 shows",
        ),
        told(
            Status::NotEmpty { side, len: 7 },
            3,
            "catalogue.a: not empty, it has 7 bytes",
        ),
        told(
            Status::Stores { kept: 1, given: 8 },
            3,
            "catalogue.a: made for 1 stores, and there are 8",
        ),
        told(Status::DiskFault, 4, "catalogue.b: Input/output error"),
        told(Status::SourceFault, 5, "standard input: Is a directory"),
        told(Status::SinkFault, 6, "standard output: Broken pipe"),
        told(Status::Memory, 7, "out of memory"),
        told(
            Status::Long { taken: 7 },
            8,
            "standard input: more than 2^48 bytes",
        ),
        told(
            Status::Worn { what, at: 7 },
            9,
            "catalogue.a: no room is left in its log",
        ),
    ] {
        assert_eq!(rt; exit_status(end.status), end.exit, "{:?}", end.status);
        let line = complaint(rt.alloc(), end.status, &failures)?;
        assert_eq!(rt; line.as_ref().map_or("", |line| line.as_str()), end.line);
    }
    Ok(())
}
