use host_edges::{Reading, Writing};
use jm_edge::{Failed, Source, put_all};
use std::io::{self, Read, Write};
use std::test::Fail;

// A reader and a writer that take at most so many bytes a call, and fail when their calls are used
// up.
#[derive(Drop)]
struct Slow {
    held: Vec<u8>,
    most: usize,
    calls: u8,
}

impl Slow {
    fn turn(&mut self, len: usize) -> io::Result<usize> {
        if self.calls == 0 {
            return Err(io::Error::from(io::ErrorKind::WouldBlock));
        }
        self.calls -= 1;
        Ok(len.min(self.most))
    }
}

impl Write for Slow {
    fn write(&mut self, piece: &[u8]) -> io::Result<usize> {
        let count = self.turn(piece.len())?.min(piece.len());
        self.held.extend_from_slice(&piece[..count])?;
        Ok(count)
    }

    fn flush(&mut self) -> io::Result<()> {
        Ok(())
    }
}

impl Read for Slow {
    fn read(&mut self, room: &mut [u8]) -> io::Result<usize> {
        let count = self.turn(room.len())?.min(room.len());
        room[..count].fill(b'x');
        Ok(count)
    }
}

#[test]
fn puts_all_through_a_writer_that_takes_a_front(rt: HostRuntime) -> Result<(), Fail> {
    let held = Vec::new(rt.alloc());
    let mut slow = Slow {
        held,
        most: 2,
        calls: 3,
    };
    let mut sink = Writing::new(&mut slow);
    assert_eq!(rt; put_all(&mut sink, b"abc"), Ok(()));
    assert_eq!(rt; put_all(&mut sink, b"def"), Err(Failed));
    assert_eq!(rt; slow.held.as_slice(), b"abcde".as_slice());
    let mut nothing = Writing::new(Slow {
        held: Vec::new(rt.alloc()),
        most: 0,
        calls: 9,
    });
    assert_eq!(rt; put_all(&mut nothing, b"a"), Err(Failed));
    Ok(())
}

#[test]
fn reads_until_a_reader_fails(rt: HostRuntime) -> Result<(), Fail> {
    let mut source = Reading::new(Slow {
        held: Vec::new(rt.alloc()),
        most: 2,
        calls: 1,
    });
    let mut room = [0u8; 3];
    assert_eq!(rt; source.read(&mut room), Ok(2));
    assert_eq!(rt; &room[..2], b"xx".as_slice());
    assert_eq!(rt; source.read(&mut room), Err(Failed));
    Ok(())
}
