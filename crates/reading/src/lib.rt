// Reads what the programs are run on: again where a signal interrupts it, up to the end, or as far as there is room.
#![tactic(auto)]

ghost use Rattle.std.specs.Prelude.{◌≡◌, ◌≢◌, ◌<◌, length, take, IfOk, IfErr, OnErr};
ghost use Rattle.std.specs.IoError.{error_kind};
ghost use Rattle.std.specs.Io.{ReadsAtMost};
ghost use Rattle.std.specs.Io.KnownBytes.{Consumes, IsAtEnd, Keeps};

use std::fs::File;
use std::io;
use std::io::{ErrorKind, Read};
use std::rt::Files;

// Reads a part of an input: how many bytes, 0 at its end. What interrupts it is no failure.
pub fn read_part<R: Read>(reader: &mut R, part: &mut [u8]) -> io::Result<usize>
    ensures within { ReadsAtMost result part.new }
    ensures bytes { IfOk result (λ n. Consumes (R.remaining reader.old) (R.remaining reader.new) (take n part.new)) }
    ensures end { IfOk result (λ n. n ≡ 0 → 0 < length part.old → IsAtEnd (R.remaining reader.new)) }
    ensures err { OnErr result (Keeps (R.remaining reader.old) (R.remaining reader.new)) }
    ensures retried { IfErr result (λ e. error_kind e ≢ ErrorKind.Interrupted) }
{
    for _ in 0..u64::MAX {
        match reader.read(part) {
            Ok(n) => return Ok(n),
            Err(e) => {
                if e.kind() != ErrorKind::Interrupted {
                    return Err(e);
                }
            }
        }
    }
    Err(io::Error::from(ErrorKind::TimedOut))
}

// Reads an input up to its end, or until the bytes are full: how many stand at their start.
pub fn read_full<R: Read>(reader: &mut R, bytes: &mut [u8]) -> io::Result<usize>
    ensures within { ReadsAtMost result bytes.new }
    ensures bytes { IfOk result (λ n. Consumes (R.remaining reader.old) (R.remaining reader.new) (take n bytes.new)) }
    ensures end { IfOk result (λ n. n < length bytes.old → IsAtEnd (R.remaining reader.new)) }
    ensures retried { IfErr result (λ e. error_kind e ≢ ErrorKind.Interrupted) }
{
    let mut n = 0;
    while n < bytes.len() {
        let k = read_part(reader, &mut bytes[n..])?;
        if k == 0 {
            return Ok(n);
        }
        n += k;
    }
    Ok(n)
}

// The same of a file.
pub fn read_file<R: Files>(rt: &R, name: &str, bytes: &mut [u8]) -> io::Result<usize>
    ensures { ReadsAtMost result bytes.new }
{
    let mut file = File::open(rt, name)?;
    read_full(&mut file, bytes)
}

#[cfg(test)]
mod tests {
    use super::*;
    use std::test::Fail;

    // Gives 1, 2 and 3, a byte at a read, and then ends or fails; it is interrupted before each.
    #[derive(Drop)]
    struct Slow {
        reads: u8,
        fails: bool,
    }

    impl Slow {
        fn next(&mut self, part: &mut [u8]) -> io::Result<usize>
            ensures { ReadsAtMost result part.new }
        {
            if self.reads >= 7 {
                return if self.fails {
                    Err(io::Error::from(ErrorKind::NotConnected))
                } else {
                    Ok(0)
                };
            }
            if part.is_empty() {
                return Ok(0);
            }
            part[0] = self.reads / 2 + 1;
            Ok(1)
        }
    }

    impl Read for Slow {
        fn read(&mut self, part: &mut [u8]) -> io::Result<usize> {
            if self.reads % 2 == 0 {
                self.reads = self.reads.saturating_add(1);
                return Err(io::Error::from(ErrorKind::Interrupted));
            }
            let n = self.next(part)?;
            self.reads = self.reads.saturating_add(1);
            Ok(n)
        }
    }

    fn read_slowly(fails: bool, bytes: &mut [u8]) -> io::Result<usize> {
        read_full(&mut Slow { reads: 0, fails }, bytes)
    }

    #[test]
    fn reads_on(rt: HostRuntime) -> Result<(), Fail> {
        let mut bytes = [9u8; 5];
        assert_eq!(rt; read_slowly(false, &mut bytes)?, 3);
        assert_eq!(rt; bytes, [1, 2, 3, 9, 9]);
        Ok(())
    }

    #[test]
    fn stops_where_it_is_full(rt: HostRuntime) -> Result<(), Fail> {
        let mut bytes = [9u8; 2];
        assert_eq!(rt; read_slowly(true, &mut bytes)?, 2);
        assert_eq!(rt; bytes, [1, 2]);
        Ok(())
    }

    #[test]
    fn says_why_it_fails(rt: HostRuntime) {
        let mut bytes = [9u8; 5];
        let e = read_slowly(true, &mut bytes).expect_err(&rt, "a read failed");
        assert_eq!(rt; e.kind(), ErrorKind::NotConnected);
    }
}
