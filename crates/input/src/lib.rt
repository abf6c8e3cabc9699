// An input read into lent memory. The reader is any: the contract names its bytes where its type knows them, and assumes nothing of an
// operating system.
//
// No public function has a `requires`.
#![tactic(auto)]

ghost use Rattle.std.specs.Prelude.{◌≡◌, ℕ, ◌<◌, ◌≤◌, length, take, IfOk, IfErr, IsOk};
ghost use Rattle.std.specs.Io.KnownBytes.{Consumes, IsAtEnd};

use std::io;
use std::io::Read;

// Reads until the space is full or the input ends, and answers how many bytes then stand at the space's front. A read that fails is answered
// as its error. What the reads before it took from the input then stands at the space's front, and nothing more was taken. These bytes do
// not fill the space, and how many they are is not told; what stands behind them may be anything. The space stays as long as it was, and an
// empty one is always answered Ok.
pub fn read_full<R: Read>(reader: &mut R, space: &mut [u8]) -> io::Result<usize>
    ensures within { IfOk result (λ n. n ≤ length space.new) }
    ensures bytes { IfOk result (λ n. Consumes (R.remaining reader.old) (R.remaining reader.new) (take n space.new)) }
    ensures end { IfOk result (λ n. n < length space.new → IsAtEnd (R.remaining reader.new)) }
    ensures err { IfErr result (λ _. (k : ℕ) × (k < length space.new) × Consumes (R.remaining reader.old) (R.remaining reader.new) (take k space.new)) }
    ensures same_length { length space.new ≡ length space.old }
    ensures empty { length space.old ≡ 0 → IsOk result }
{
    let mut done = 0;
    while done < space.len() {
        let n = reader.read(&mut space[done..])?;
        if n == 0 {
            break;
        }
        done += n;
    }
    Ok(done)
}

#[cfg(test)]
mod tests {
    use super::*;
    use std::io::ErrorKind;
    use std::test::Fail;

    // Gives one `a` at a time, so many of them, and then fails or ends.
    #[derive(Drop)]
    struct Slow {
        left: u8,
        fails: bool,
    }

    impl Read for Slow {
        fn read(&mut self, buf: &mut [u8]) -> io::Result<usize> {
            if self.left == 0 && self.fails {
                return Err(io::Error::from(ErrorKind::TimedOut));
            }
            if self.left == 0 || buf.is_empty() {
                return Ok(0);
            }
            self.left -= 1;
            buf[0] = b'a';
            Ok(1)
        }
    }

    fn one_at_a_time(left: u8, fails: bool) -> Slow {
        Slow { left, fails }
    }

    #[test]
    fn reads_to_the_end(rt: HostRuntime) -> Result<(), Fail> {
        let mut space = [0u8; 4];
        let n = read_full(&mut one_at_a_time(3, false), &mut space)?;
        assert_eq!(rt; n, 3);
        assert_eq!(rt; space.as_slice(), b"aaa\0".as_slice());
        Ok(())
    }

    #[test]
    fn leaves_what_has_no_room(rt: HostRuntime) -> Result<(), Fail> {
        let mut input = one_at_a_time(6, true);
        let mut space = [0u8; 4];
        let n = read_full(&mut input, &mut space)?;
        assert_eq!(rt; n, 4);
        assert_eq!(rt; space.as_slice(), b"aaaa".as_slice());
        assert_eq!(rt; input.left, 2);
        Ok(())
    }

    #[test]
    fn answers_the_error_of_a_read(rt: HostRuntime) {
        let mut space = [0u8; 4];
        let read = read_full(&mut one_at_a_time(3, true), &mut space);
        assert!(rt; matches!(read.map_err(|e| e.kind()), Err(ErrorKind::TimedOut)));
    }
}
