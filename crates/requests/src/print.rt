// Numbers and lent bytes, printed.
use std::io;

pub(crate) fn print_bytes(rt: &impl Print, bytes: &[u8]) -> io::Result<()> {
    for byte in bytes {
        print_size(rt, u64::from(*byte))?;
    }
    Ok(())
}

pub(crate) fn print_size(rt: &impl Print, size: u64) -> io::Result<()> {
    print!(rt; " {size}")
}

// A part of a range, if it is one.
pub(crate) fn print_part(rt: &impl Print, range: &[u8], start: u64, length: u64) -> io::Result<()> {
    if let Some(rest) = range.get(start as usize..) {
        if let Some(part) = rest.get(..length as usize) {
            return rt.write_all(part);
        }
    }
    Ok(())
}
