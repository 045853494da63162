//! Where two texts differ.
use std::io;
use std::io::Write;

/// Prints the first line of the text that isn't the one that is wanted.
pub fn print_difference(
    rt: &HostRuntime,
    name: &str,
    wanted: &[u8],
    given: &[u8],
) -> io::Result<()> {
    let mut wanted = wanted.split(|byte| *byte == b'\n');
    let mut given = given.split(|byte| *byte == b'\n');
    for number in 1..u64::MAX {
        let (wanted, given) = (wanted.next(), given.next());
        if wanted != given {
            print!(rt; "{name}: line {number} is ")?;
            print_line(rt, given)?;
            print!(rt; ", not ")?;
            print_line(rt, wanted)?;
            return println!(rt);
        }
    }
    Ok(())
}

/// A line in quotes, or that there is none.
fn print_line(rt: &HostRuntime, line: Option<&[u8]>) -> io::Result<()> {
    let mut writer = io::writer(rt);
    let Some(line) = line else {
        return writer.write_all(b"no more");
    };
    writer.write_all(b"`")?;
    writer.write_all(line)?;
    writer.write_all(b"`")
}
