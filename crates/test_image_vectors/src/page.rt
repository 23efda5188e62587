// What is said of images, and where it is printed.

ghost use Rattle.std.specs.Prelude.{◌≡◌, None};
ghost use Rattle.fields.specs.Answers.{layout_of};
ghost use Rattle.test_image_vectors.specs.Said.{said_in, said_after};

use definitions::Refusal;
use fields::Counts;
use std::{fmt, io};

// What is said of images in a row, and of how many.
#[derive(Clone, Copy)]
pub struct Said {
    pub times: u64,
    pub verdict: Result<Counts, Refusal>,
}

impl fmt::Display for Said {
    fn fmt<W: fmt::Write>(&self, f: &mut fmt::Formatter<W>) -> fmt::Result {
        match self.verdict {
            Ok(counts) => write!(
                f,
                "{} (right {} {})",
                self.times, counts.nodes, counts.entries
            ),
            Err(r) => write!(f, "{} (refused {})", self.times, r.number()),
        }
    }
}

// Where lines are printed, the first failure to print one, and what was said last.
#[derive(Drop)]
pub struct Page<'a, P> {
    rt: &'a P,
    pub printed: io::Result<()>,
    pub last: Option<Said>,
}

impl<'a, P: Print> Page<'a, P> {
    // Nothing is said or printed yet.
    pub fn new(rt: &'a P) -> Page<'a, P>
        ensures { result.last ≡ None }
    {
        Page {
            rt,
            printed: Ok(()),
            last: None,
        }
    }

    // Prints what was said last.
    pub fn print(&mut self)
        ensures { self.new.last ≡ self.old.last }
    {
        if let Some(said) = self.last
            && self.printed.is_ok()
        {
            self.printed = println!(self.rt; "{said}");
        }
    }

    // One more answer: the same again, or the last one is printed.
    pub fn say(&mut self, verdict: Result<Counts, Refusal>)
        ensures { said_in self.new.last ≡ said_after (said_in self.old.last) (layout_of verdict) }
    {
        let last = self.last;
        match last {
            Some(said) if said.verdict == verdict && said.times < 1000000 => {
                self.last = Some(Said {
                    times: said.times + 1,
                    verdict,
                });
            }
            _ => {
                self.print();
                self.last = Some(Said { times: 1, verdict });
            }
        }
    }
}
