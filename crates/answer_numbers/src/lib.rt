// The answers of calls as numbers: the refusal's, 0 where there is none, how many rows or bytes there are, how many blocks were taken.
#![tactic(auto)]

ghost use Rattle.std.specs.Prelude.{◌≡◌, set};
ghost use Rattle.definitions.specs.Refusals.{number_in};
ghost use Rattle.stream_recording.specs.Answers.{streamed_number, streamed_taken};
ghost use Rattle.answer_numbers.specs.Counts.{count_after};
ghost use Rattle.answer_numbers.specs.Numbered.{numbered, number_or_zero, stop_numbered, stop_number, stop_taken};

use definitions::Refusal;
use stream_recording::Stopped;

// A stream call that stopped at a refusal with any number, behind so many blocks that were taken.
#[derive(Clone, Copy)]
pub struct StoppedAt {
    pub taken: u64,
    pub number: u64,
}

// The number of a refusal, 0 where there is none.
pub fn number_of<T: Copy>(answer: Result<T, Refusal>) -> u64
    ensures { result ≡ number_in answer }
{
    match answer {
        Ok(_) => 0,
        Err(refusal) => refusal.number(),
    }
}

// The answer with the refusal's number in its place.
pub fn numbered<T: Copy>(answer: Result<T, Refusal>) -> Result<T, u64>
    ensures { result ≡ numbered answer }
{
    match answer {
        Ok(value) => Ok(value),
        Err(refusal) => Err(refusal.number()),
    }
}

// Writes how many rows or bytes there are, unless the call is refused, and answers the refusal's number, whichever it is.
pub fn put_count(count: &mut [u64; 1], answer: Result<usize, u64>) -> u64
    ensures { (result ≡ number_or_zero answer) × (count.new ≡ count_after answer count.old) }
{
    match answer {
        Ok(n) => {
            count[0] = n as u64;
            0
        }
        Err(number) => number,
    }
}

// How many blocks of a stream were taken, whether all were or not.
pub fn taken_of(answer: Result<u64, Stopped>) -> u64
    ensures { result ≡ streamed_taken answer }
{
    match answer {
        Ok(taken) => taken,
        Err(stopped) => stopped.taken,
    }
}

// The number of the refusal that stopped a stream, 0 at its end.
pub fn stopped_by(answer: Result<u64, Stopped>) -> u64
    ensures { result ≡ streamed_number answer }
{
    match answer {
        Ok(_) => 0,
        Err(stopped) => stopped.refusal.number(),
    }
}

// The answer of a stream call with the refusal's number in its place.
pub fn stop_numbered(answer: Result<u64, Stopped>) -> Result<u64, StoppedAt>
    ensures { result ≡ stop_numbered answer }
{
    match answer {
        Ok(all) => Ok(all),
        Err(stopped) => Err(StoppedAt {
            taken: stopped.taken,
            number: stopped.refusal.number(),
        }),
    }
}

// Writes how many blocks of a stream were taken, whether all were or not, and answers the refusal's number, whichever it is.
pub fn put_taken(taken: &mut [u64; 1], answer: Result<u64, StoppedAt>) -> u64
    ensures { (result ≡ stop_number answer) × (taken.new ≡ set taken.old 0 (stop_taken answer)) }
{
    match answer {
        Ok(all) => {
            taken[0] = all;
            0
        }
        Err(stop) => {
            taken[0] = stop.taken;
            stop.number
        }
    }
}
