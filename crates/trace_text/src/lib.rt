// The text form of a trace: written from a trace, and read into processors and records.
#![tactic(auto)]

mod commands;
mod fields;
mod header;
mod lines;
mod numbers;
mod parts;
pub mod reading;
mod records;
pub mod writing;

#[cfg(test)]
mod tests {
    use super::*;
    use reading::read_text;
    use std::test::Fail;
    use trace::trace::Trace;
    use trace::writing::write_trace;
    use writing::write_text;

    #[test]
    fn read_and_written(rt: HostRuntime) -> Result<(), Fail> {
        let given = b"# a comment\n\ntrace version  1 processors 2\n0 1 w 10 2a\n";
        assert!(rt; matches!(read_text(rt.alloc(), given)?, Err(4)));
        let text = b"# by hand\ntrace  version 1 processors 2\n\n007 0 W 10 2a \n10 1 LR FFFFFFFF";
        let read = read_text(rt.alloc(), text)?;
        assert!(rt; read.is_ok());
        let Ok(read) = read else { return Ok(()) };
        let mut bytes = [0; 40];
        let length = write_trace(&mut bytes, read.processors, &read.records).unwrap_or(0);
        let trace = Trace::read(&bytes[..length]);
        assert!(rt; trace.is_ok());
        let Ok(trace) = trace else { return Ok(()) };
        let want = b"trace version 1 processors 2\n7 0 W 00000010 0000002A\n10 1 LR FFFFFFFF\n";
        assert!(rt; write_text(rt.alloc(), &trace)?.as_slice() == want.as_slice());
        Ok(())
    }

    #[test]
    fn no_header(rt: HostRuntime) -> Result<(), Fail> {
        assert!(rt; matches!(read_text(rt.alloc(), b"")?, Err(1)));
        assert!(rt; matches!(read_text(rt.alloc(), b"# nothing\n \n")?, Err(3)));
        Ok(())
    }
}
