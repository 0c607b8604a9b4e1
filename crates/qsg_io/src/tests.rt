use super::*;
use std::io;
use std::io::{Read, Write};
use std::test::Fail;

#[test]
fn reads_in_pieces(rt: HostRuntime) -> Result<(), Fail> {
    let mut source = MemSource::new(vec![in rt.alloc(); 1, 2, 3]?, vec![in rt.alloc(); 2]?);
    let mut buffer = [0u8; 2];
    assert_eq!(rt; source.read(&mut buffer), Ok(2));
    assert_eq!(rt; buffer, [1, 2]);
    assert_eq!(rt; source.read(&mut buffer), Err(Failed));
    assert_eq!(rt; buffer, [1, 2]);
    assert_eq!(rt; source.read(&mut buffer), Ok(1));
    assert_eq!(rt; buffer, [3, 2]);
    assert_eq!(rt; source.read(&mut buffer), Ok(0));
    Ok(())
}

#[test]
fn writes_up_to_its_room(rt: HostRuntime) -> Result<(), Fail> {
    let mut sink = MemSink::new(rt.alloc(), 3, vec![in rt.alloc(); 1]?)?;
    assert_eq!(rt; sink.write(&[7, 8]), Err(Failed));
    assert_eq!(rt; sink.write(&[7, 8]), Ok(2));
    assert_eq!(rt; sink.write(&[9, 9]), Ok(1));
    assert_eq!(rt; sink.write(&[]), Ok(0));
    assert_eq!(rt; sink.write(&[9]), Err(Failed));
    assert_eq!(rt; sink.written(), [7, 8, 9].as_slice());
    Ok(())
}

// Gives one byte a call, and fails at the second.
#[derive(Drop)]
struct FailsSecond {
    calls: u8,
}

impl Read for FailsSecond {
    fn read(&mut self, buf: &mut [u8]) -> io::Result<usize> {
        self.calls = self.calls.saturating_add(1);
        if self.calls == 2 || buf.is_empty() {
            return Err(io::ErrorKind::Other.into());
        }
        buf[0] = self.calls;
        Ok(1)
    }
}

#[test]
fn std_reader(rt: HostRuntime) {
    let mut source = StdSource::new(FailsSecond { calls: 0 });
    let mut buffer = [0u8; 2];
    assert_eq!(rt; source.read(&mut buffer), Ok(1));
    assert_eq!(rt; source.read(&mut buffer), Err(Failed));
    assert_eq!(rt; source.read(&mut buffer), Ok(1));
    assert_eq!(rt; buffer, [3, 0]);
}

// Takes two bytes at most, fails at the second call, and takes nothing at the third.
#[derive(Drop)]
struct TakesTwo {
    calls: u8,
}

impl Write for TakesTwo {
    fn write(&mut self, buf: &[u8]) -> io::Result<usize> {
        self.calls = self.calls.saturating_add(1);
        match self.calls {
            1 => Ok(buf.len().min(2)),
            2 => Err(io::ErrorKind::Other.into()),
            _ => Ok(0),
        }
    }

    fn flush(&mut self) -> io::Result<()> {
        Ok(())
    }
}

#[test]
fn std_writer(rt: HostRuntime) {
    let mut sink = StdSink::new(TakesTwo { calls: 0 });
    assert_eq!(rt; sink.write(&[1, 2, 3]), Ok(2));
    assert_eq!(rt; sink.write(&[3]), Err(Failed));
    assert_eq!(rt; sink.write(&[3]), Err(Failed));
    assert_eq!(rt; sink.write(&[]), Ok(0));
}
