use crate::running::run;
use std::alloc::{AllocError, Allocator, Global};
use std::cell::Cell;
use std::env::FillError;
use std::fmt::Display;
use std::io;
use std::io::{BufRead, Lines};
use std::process::ExitCode;
use std::rt::Env;
use std::test::Fail;

// The file of one row of two cells with top 10 and the letter Q: the readings 0 and 10 of class 1, and a tie of 6 between them.
static TWO_CELLS: [u8; 29] = [
    0, 1, 0x51, 0, 3, 0, 1, 0, 2, 0, 10, 0, 2, 0, 0, 1, 0, 10, 1, 0, 2, 0, 6, 0, 0, 0, 0, 0, 0,
];

// A runtime with arguments and a standard input of its own, which keeps what is printed.
#[derive(Drop)]
struct Fake<'a> {
    alloc: Global,
    arguments: &'static [&'static [u8]],
    input: &'a [u8],
    printed: Cell<Option<String>>,
    complained: Cell<Option<String>>,
}

impl<'a> Fake<'a> {
    fn new(rt: &HostRuntime, arguments: &'static [&'static [u8]], input: &'a [u8]) -> Fake<'a> {
        Fake {
            alloc: rt.alloc(),
            arguments,
            input,
            printed: Cell::new(None),
            complained: Cell::new(None),
        }
    }

    // Appends to what a stream was given.
    fn append<D: Display + Drop>(
        &self,
        stream: &Cell<Option<String>>,
        value: D,
        end: &str,
    ) -> io::Result<()> {
        let before = stream.take();
        let text = before.as_ref().map_or("", |text| text.as_str());
        let longer = format!(in self.alloc; "{text}{value}{end}")?;
        stream.set(Some(longer));
        Ok(())
    }
}

impl Alloc for Fake<'_> {
    type A = Global;

    fn alloc(&self) -> Global {
        self.alloc
    }
}

impl Print for Fake<'_> {
    fn print<D: Display + Drop>(&self, value: D) -> io::Result<()> {
        self.append(&self.printed, value, "")
    }

    fn println<D: Display + Drop>(&self, value: D) -> io::Result<()> {
        self.append(&self.printed, value, "\n")
    }

    fn write_all(&self, _bytes: &[u8]) -> io::Result<()> {
        Err(io::Error::from(io::ErrorKind::Unsupported))
    }
}

impl Eprint for Fake<'_> {
    fn eprint<D: Display + Drop>(&self, value: D) -> io::Result<()> {
        self.append(&self.complained, value, "")
    }

    fn eprintln<D: Display + Drop>(&self, value: D) -> io::Result<()> {
        self.append(&self.complained, value, "\n")
    }
}

impl<'a> Input for Fake<'a> {
    type Reader = &'a [u8];

    fn read_line<A: Allocator + Clone>(&self, _buf: &mut String<A>) -> io::Result<usize> {
        Err(io::Error::from(io::ErrorKind::Unsupported))
    }

    fn lines<A: Allocator>(&self, alloc: A) -> Lines<&'a [u8], A> {
        self.input.lines(alloc)
    }

    fn reader(&self) -> &'a [u8] {
        self.input
    }
}

impl Env for Fake<'_> {
    fn arg(&self, i: usize, buf: &mut [u8]) -> Result<usize, FillError> {
        let Some(argument) = self.arguments.get(i) else {
            return Err(FillError::NotPresent);
        };
        if buf.len() < argument.len() {
            return Err(FillError::TooLong);
        }
        buf[..argument.len()].copy_from_slice(argument);
        Ok(argument.len())
    }

    fn var(&self, _name: &str, _buf: &mut [u8]) -> Result<usize, FillError> {
        Err(FillError::NotPresent)
    }

    fn var_at(&self, _i: usize, _buf: &mut [u8]) -> Result<usize, FillError> {
        Err(FillError::NotPresent)
    }
}

// The status that the program ends with, and what it prints on standard output and standard error.
#[derive(Drop)]
struct Outcome {
    status: ExitCode,
    printed: String,
    complained: String,
}

fn ended_on(
    rt: &HostRuntime,
    arguments: &'static [&'static [u8]],
    input: &[u8],
) -> Result<Outcome, Fail> {
    let fake = Fake::new(rt, arguments, input);
    let status = run(&fake)?;
    let none = String::new(rt.alloc());
    Ok(Outcome {
        status,
        printed: fake.printed.take().unwrap_or(String::new(rt.alloc())),
        complained: fake.complained.take().unwrap_or(none),
    })
}

static ANSWERED: [&[u8]; 5] = [b"flatten", b"--records", b"2", b"--cut", b"paths"];

static FEW_RECORDS: [&[u8]; 3] = [b"flatten", b"--records", b"1"];

static FEW_RECORDS_STRICT: [&[u8]; 3] = [b"flatten", b"--records=1", b"--strict"];

// The grid is printed, or a line about the first fault; --strict alone has the status tell of it.
#[test]
fn answers(rt: HostRuntime) -> Result<(), Fail> {
    for (arguments, status, printed) in [
        (ANSWERED.as_slice(), ExitCode::SUCCESS, "1 2 10 4 42\n3 7\n"),
        (
            FEW_RECORDS.as_slice(),
            ExitCode::SUCCESS,
            "refused 14 2 5 2\n",
        ),
        (
            FEW_RECORDS_STRICT.as_slice(),
            ExitCode::from(3),
            "refused 14 2 5 2\n",
        ),
    ] {
        let outcome = ended_on(&rt, arguments, &TWO_CELLS)?;
        assert_eq!(rt; outcome.status, status);
        assert_eq!(rt; outcome.printed.as_str(), printed);
        assert_eq!(rt; outcome.complained.as_str(), "");
    }
    Ok(())
}

static NAME: [&[u8]; 1] = [b"flatten"];

// The file of so many rows of one cell each, with top 1, the letter A, readings of 0 and no ties.
fn flat_column(alloc: Global, rows: u8) -> Result<Vec<u8>, AllocError> {
    let mut file = Vec::new(alloc);
    file.extend_from_slice(&[0, 1, b'A', 0, 3, 0, rows, 0, 1, 0, 1, 0, rows])?;
    for _ in 0..rows {
        file.extend_from_slice(&[0, 0, 1])?;
    }
    file.extend_from_slice(&[0, rows])?;
    for _ in 0..rows {
        file.extend_from_slice(&[0, 0, 0, 0])?;
    }
    Ok(file)
}

// There is memory enough for a tile of any number of rows.
#[test]
fn each_number_of_rows(rt: HostRuntime) -> Result<(), Fail> {
    for rows in 1..=64 {
        let file = flat_column(rt.alloc(), rows)?;
        let outcome = ended_on(&rt, NAME.as_slice(), &file)?;
        let heading = format!(in rt.alloc(); "{rows} 1 1 1 0\n0\n")?;
        assert_eq!(rt; outcome.status, ExitCode::SUCCESS);
        assert!(rt;
            outcome.printed.as_str().starts_with(heading.as_str()),
            "at {rows} rows"
        );
    }
    Ok(())
}

static HELP: [&[u8]; 2] = [b"flatten", b"--help"];

#[test]
fn help(rt: HostRuntime) -> Result<(), Fail> {
    let outcome = ended_on(&rt, HELP.as_slice(), &[])?;
    assert_eq!(rt; outcome.status, ExitCode::SUCCESS);
    assert_eq!(rt; outcome.complained.as_str(), "");
    for part in [
        "Usage: flatten [OPTIONS]",
        "its lowest cheapest grid",
        "--records <N>",
        "[default: 1024]",
        "--cut <MAKER>",
        "[possible values: paths, push]",
        "--strict",
        "--help",
        "Status: 0",
    ] {
        assert!(rt;
            outcome.printed.as_str().contains(part),
            "{part} is not there"
        );
    }
    Ok(())
}

static NO_NUMBER: [&[u8]; 3] = [b"flatten", b"--records", b"x"];

static NO_MAKER: [&[u8]; 3] = [b"flatten", b"--cut", b"knife"];

static NO_SUCH: [&[u8]; 2] = [b"flatten", b"tile"];

static NO_TEXT: [&[u8]; 2] = [b"flatten", b"\xff"];

// Nothing is printed but a line that says which argument is not understood.
#[test]
fn arguments_not_understood(rt: HostRuntime) -> Result<(), Fail> {
    for (arguments, why) in [
        (
            NO_NUMBER.as_slice(),
            "error: invalid value 'x' for '--records <N>'",
        ),
        (
            NO_MAKER.as_slice(),
            "error: invalid value 'knife' for '--cut <MAKER>'",
        ),
        (
            NO_SUCH.as_slice(),
            "error: unexpected argument 'tile' found",
        ),
        (NO_TEXT.as_slice(), "error: an argument is no text"),
    ] {
        let outcome = ended_on(&rt, arguments, &TWO_CELLS)?;
        assert_eq!(rt; outcome.status, ExitCode::from(2));
        assert_eq!(rt; outcome.printed.as_str(), "");
        assert!(rt;
            outcome.complained.as_str().starts_with(why),
            "no line begins {why}"
        );
    }
    Ok(())
}
