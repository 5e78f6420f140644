// What the programs share: how they read input, and how cases stand in it and in the output.
#![tactic(auto)]

pub mod cases;
pub mod reading;

#[cfg(test)]
mod tests {
    use super::*;
    use cases::{put_heading, split_counted};
    use reading::read_all;
    use std::test::Fail;

    #[test]
    fn counted_items(rt: HostRuntime) {
        let input: &[u8] = &[2, 10, 11, 12, 13, 99];
        assert_eq!(rt; split_counted(input, 2), Some((&input[1..5], &input[5..])));
        assert_eq!(rt; split_counted(input, 3), None);
        assert_eq!(rt; split_counted(b"", 1), None);
    }

    #[test]
    fn heading_behind_text(rt: HostRuntime) -> Result<(), Fail> {
        let mut out = Vec::new(rt.alloc());
        out.push(b'x')?;
        put_heading(&mut out, b"first")?;
        assert_eq!(rt; out.as_slice(), b"x== first\n".as_slice());
        Ok(())
    }

    #[test]
    fn all_is_read(rt: HostRuntime) -> Result<(), Fail> {
        let bytes = read_all(rt.alloc(), b"some bytes".as_slice())?;
        assert_eq!(rt; bytes.as_slice(), b"some bytes".as_slice());
        Ok(())
    }
}
