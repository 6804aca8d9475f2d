// What is answered for a file.
ghost use Rattle.std.specs.Prelude.{IfOk, IfSome, string_bytes};
ghost use Rattle.report.specs.Answering.{Answers};
ghost use Rattle.flatten.specs.Answering.{Refuses, Answered};

use crate::options::{Cut, Options};
use cut::{AugmentingPaths, PushRelabel, Step};
use report::answer;
use std::alloc::{AllocError, Global};
use std::io;
use std::io::Read;
use tilefile::{Contents, front_length};

/// What is printed for a file, and whether the file is refused.
#[derive(Drop)]
pub struct Answer {
    pub text: String,
    pub refused: bool,
}

// What is printed for a file of these bytes.
fn text_of(alloc: Global, bytes: &[u8], options: Options) -> Result<String, AllocError>
    ensures { IfOk result (λ text. Answers bytes.now options.records (string_bytes text)) }
{
    match options.cut {
        Cut::Paths => answer(
            alloc,
            bytes,
            options.records,
            &AugmentingPaths,
            Step::default(),
        ),
        Cut::Push => answer(alloc, bytes, options.records, &PushRelabel, 0),
    }
}

// Is a file of these bytes refused?
fn is_refused(bytes: &[u8], records: usize) -> bool
    ensures { Refuses bytes.now records result }
{
    Contents::check(bytes, records).is_err()
}

impl Answer {
    /// What is answered for the file that a reader has. No more of it is read than what tells its first fault.
    pub fn to<R: Read + Drop>(alloc: Global, file: R, options: Options) -> io::Result<Answer>
        ensures { IfOk result (λ answer. IfSome (R.remaining file) (λ bytes. Answered bytes options.records answer)) }
    {
        let mut front = Vec::new(alloc);
        file.take(front_length(options.records) as u64)
            .read_to_end(&mut front)?;
        Ok(Answer {
            text: text_of(alloc, &front, options)?,
            refused: is_refused(&front, options.records),
        })
    }
}
