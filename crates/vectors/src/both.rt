// What is printed for one tile file, by each of the cut makers.
ghost use Rattle.std.specs.Prelude.{◌≢◌, ◌↔◌, IsTrue, IfOk, string_bytes};
ghost use Rattle.report.specs.Answering.{Answers};

use cut::{AugmentingPaths, PushRelabel, Step};
use report::answer;
use std::alloc::{AllocError, Global};

#[derive(Drop)]
pub struct Both {
    pub by_push: String,
    pub by_paths: String,
}

impl Both {
    // The texts for a file, solved in so many records.
    pub fn solve(alloc: Global, bytes: &[u8], records: usize) -> Result<Both, AllocError>
        ensures by_push { IfOk result (λ texts. Answers bytes.now records (string_bytes texts.by_push)) }
        ensures by_paths { IfOk result (λ texts. Answers bytes.now records (string_bytes texts.by_paths)) }
    {
        Ok(Both {
            by_push: answer(alloc, bytes, records, &PushRelabel, 0)?,
            by_paths: answer(alloc, bytes, records, &AugmentingPaths, Step::default())?,
        })
    }

    // Whether the makers came to different texts.
    pub fn differ(&self) -> bool
        ensures { IsTrue result ↔ (string_bytes self.now.by_push ≢ string_bytes self.now.by_paths) }
    {
        self.by_push.as_str() != self.by_paths.as_str()
    }
}
