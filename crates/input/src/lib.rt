// Standard input, read to its end. An input that cannot be read is told apart from one that is empty.
#![tactic(auto)]

ghost use Rattle.std.specs.Prelude.{◌≤◌, length};
ghost use Rattle.input.specs.Within.{IsPrefixLen, Within};

use std::io;

// Reads until the input ends or the lent bytes are full, and counts what came: so what came before the system refused to read is counted too.
fn read_on<R: io::Read>(from: &mut R, bytes: &mut [u8], done: &mut usize) -> io::Result<()>
    requires { done.old ≤ length bytes.old }
    ensures { IsPrefixLen done.new bytes.new }
{
    while *done < bytes.len() {
        let count = from.read(&mut bytes[*done..])?;
        if count == 0 {
            break;
        }
        *done += count;
    }
    Ok(())
}

// Reads until the input ends or the lent bytes are full. So many bytes stand at their start then; where that is all of them, the input may go on.
pub fn read_all<R: io::Read>(from: &mut R, bytes: &mut [u8]) -> io::Result<usize>
    ensures { Within result bytes.new }
{
    let mut done = 0;
    read_on(from, bytes, &mut done)?;
    Ok(done)
}

// Reads until the lent bytes are full, the input ends or the system refuses to read, and answers how many bytes stand at their start.
pub fn read_full<R: io::Read>(from: &mut R, bytes: &mut [u8]) -> usize
    ensures { IsPrefixLen result bytes.new }
{
    let mut done = 0;
    let _ = read_on(from, bytes, &mut done);
    done
}
