// What no clause says: the words told on standard error, and that a read or a write that fails is told once.
use crate::{Piece, make_room, next_piece, say, say_no_room, write_waiting};
use std::io;
use std::io::{Read, Write};
use std::test::Fail;

// A reader that gives two bytes, and then fails as a directory does.
#[derive(Drop)]
struct Directory(usize);

impl Read for Directory {
    fn read(&mut self, buf: &mut [u8]) -> io::Result<usize> {
        if self.0 == 0 {
            return Err(io::Error::from_raw_os_error(21));
        }
        self.0 = 0;
        let n = buf.len().min(2);
        buf[..n].copy_from_slice(&b"hi"[..n]);
        Ok(n)
    }
}

// A writer that takes one byte at a time, as many as it has room for, and then fails as a full device does.
#[derive(Drop)]
struct Device(usize);

impl Write for Device {
    fn write(&mut self, buf: &[u8]) -> io::Result<usize> {
        if self.0 == 0 {
            return Err(io::Error::from_raw_os_error(28));
        }
        self.0 -= 1;
        Ok(buf.len().min(1))
    }

    fn flush(&mut self) -> io::Result<()> {
        Ok(())
    }
}

#[test]
fn a_failed_read_is_told(rt: HostRuntime) -> Result<(), Fail> {
    let mut errors = Vec::new(rt.alloc());
    let mut input = Directory(1);
    let mut piece = [0u8; 4];
    assert!(rt;
        matches!(
            next_piece(&mut input, &mut errors, &mut piece, 0),
            Piece::Bytes(2)
        )
    );
    assert!(rt; errors.is_empty());
    assert!(rt;
        matches!(
            next_piece(&mut input, &mut errors, &mut piece, 2),
            Piece::Failed
        )
    );
    assert_eq!(rt;
        errors.as_slice(),
        b"standard input: Is a directory\n".as_slice()
    );
    Ok(())
}

#[test]
fn a_failed_write_is_told(rt: HostRuntime) -> Result<(), Fail> {
    let mut errors = Vec::new(rt.alloc());
    let mut output = Device(5);
    assert!(rt; write_waiting(&mut output, &mut errors, b"text", 3));
    assert!(rt; errors.is_empty());
    assert!(rt; make_room(&mut output, &mut errors, b"text", 3, 2).is_none());
    assert_eq!(rt;
        errors.as_slice(),
        b"standard output: No space left on device\n".as_slice()
    );
    Ok(())
}

#[test]
fn what_is_said_is_a_line(rt: HostRuntime) -> Result<(), Fail> {
    let mut errors = Vec::new(rt.alloc());
    say(&mut errors, b"words");
    say_no_room(&mut errors);
    assert_eq!(rt;
        errors.as_slice(),
        b"words\na buffer is too short\n".as_slice()
    );
    Ok(())
}
