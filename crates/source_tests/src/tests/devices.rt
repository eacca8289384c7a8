//! What readers and writers give and take, call by call.
ghost use Rattle.std.specs.Prelude.{◌≡◌, ◌+◌, ◌-◌, ◌^◌, ◌<◌, ◌≤◌};

use peer_view::{
    MemReader, MemWriter, PeerRead, PeerWrite, ReadFailed, StdReader, StdWriter, WriteFailed,
    WriteFault, write_all,
};
use std::alloc::{AllocError, Global};
use std::io;
use std::io::{ErrorKind, Read, Write};

// A reader of std that gives one byte, is interrupted, and then ends.
#[derive(Drop)]
struct Stumbles {
    calls: u8,
}

impl Read for Stumbles {
    fn read(&mut self, room: &mut [u8]) -> io::Result<usize> {
        self.calls = self.calls.saturating_add(1);
        match self.calls {
            1 if !room.is_empty() => {
                room[0] = b'k';
                Ok(1)
            }
            2 => Err(ErrorKind::Interrupted.into()),
            _ => Ok(0),
        }
    }
}

// A writer of std that takes nothing.
#[derive(Drop)]
struct Full;

impl Write for Full {
    fn write(&mut self, _bytes: &[u8]) -> io::Result<usize> {
        Ok(0)
    }

    fn flush(&mut self) -> io::Result<()> {
        Ok(())
    }
}

// The pieces `abc`, an empty one, and `d`.
fn pieces(alloc: Global) -> Result<Vec<Vec<u8>>, AllocError> {
    let mut pieces = Vec::new(alloc);
    for piece in [b"abc".as_slice(), b"", b"d"] {
        pieces.push(piece.to_vec(alloc)?)?;
    }
    Ok(pieces)
}

// Whether one read says this, and leaves this in the room. It tells the proof of a test the count of calls alone.
fn reads(
    reader: &mut MemReader,
    room: &mut [u8],
    said: Result<usize, ReadFailed>,
    held: &[u8],
) -> bool
    requires { reader.old.calls < 2 ^ 64 - 1 }
    ensures { reader.new.calls ≡ reader.old.calls + 1 }
{
    reader.read(room) == said && *room == *held
}

#[test]
fn a_reader_gives_a_piece_a_read(rt: HostRuntime) {
    let mut reader = MemReader::new(pieces(rt.alloc()).expect(&rt, "memory"), false);
    let mut room = *b"..";
    assert!(rt; reads(&mut reader, &mut room, Ok(2), b"ab"));
    assert!(rt; reads(&mut reader, &mut [], Ok(0), b""));
    assert!(rt; reads(&mut reader, &mut room, Ok(1), b"cb"));
    assert!(rt; reads(&mut reader, &mut room, Ok(1), b"db"));
    assert!(rt; reads(&mut reader, &mut room, Ok(0), b"db"));
    assert!(rt; reads(&mut reader, &mut room, Ok(0), b"db"));
}

#[test]
fn a_reader_fails_after_its_last_piece(rt: HostRuntime) {
    let mut reader = MemReader::new(pieces(rt.alloc()).expect(&rt, "memory"), true);
    let mut room = *b"....";
    assert!(rt; reads(&mut reader, &mut room, Ok(3), b"abc."));
    assert!(rt; reads(&mut reader, &mut room, Ok(1), b"dbc."));
    assert!(rt; reads(&mut reader, &mut room, Err(ReadFailed), b"dbc."));
    assert!(rt; reads(&mut reader, &mut [], Ok(0), b""));
    assert!(rt; reads(&mut reader, &mut room, Err(ReadFailed), b"dbc."));
}

// Whether one write says this. It tells the proof of a test the count of failures alone.
fn takes(writer: &mut MemWriter, bytes: &[u8], said: Result<usize, WriteFailed>) -> bool
    requires { writer.old.failures < 2 ^ 64 - 1 }
    ensures { writer.new.failures ≤ writer.old.failures + 1 }
{
    writer.write(bytes) == said
}

#[test]
fn a_writer_takes_steps_up_to_its_limit(rt: HostRuntime) {
    let mut writer = MemWriter::new(rt.alloc(), 2, Some(5));
    assert!(rt; takes(&mut writer, b"abc", Ok(2)));
    assert!(rt; takes(&mut writer, b"cd", Ok(2)));
    assert!(rt; takes(&mut writer, b"ef", Ok(1)));
    assert!(rt; takes(&mut writer, b"f", Err(WriteFailed)));
    assert!(rt; takes(&mut writer, b"", Ok(0)));
    assert!(rt; writer.taken() == b"abcde".as_slice());
}

// Whether writing all the bytes ends so, and the writer took these.
fn writes_all(
    mut writer: MemWriter,
    bytes: &[u8],
    end: Result<(), WriteFault>,
    taken: &[u8],
) -> bool
    requires { writer.failures < 2 ^ 64 - 1 }
{
    write_all(&mut writer, bytes) == end && *writer.taken() == *taken
}

#[test]
fn all_is_written_or_the_count_is_told(rt: HostRuntime) {
    let alloc = rt.alloc();
    assert!(rt; writes_all(MemWriter::new(alloc, 1, Some(2)), b"ab", Ok(()), b"ab"));
    let fault = WriteFault { written: 2 };
    assert!(rt; writes_all(MemWriter::new(alloc, 8, Some(2)), b"abc", Err(fault), b"ab"));
}

#[test]
fn a_reader_of_std_tells_its_end_and_gives_it_back(rt: HostRuntime) {
    let mut reader = StdReader::new(b"abc".as_slice());
    let mut room = *b"..";
    assert!(rt; reader.read(&mut room) == Ok(2));
    assert!(rt; room == *b"ab");
    assert!(rt; reader.into_inner() == b"c".as_slice());
}

#[test]
fn an_interrupted_read_is_a_failure(rt: HostRuntime) {
    let mut reader = StdReader::new(Stumbles { calls: 0 });
    let mut room = *b"..";
    let told = [
        reader.read(&mut room),
        reader.read(&mut room),
        reader.read(&mut room),
    ];
    assert!(rt; told == [Ok(1), Err(ReadFailed), Ok(0)]);
    assert!(rt; room == *b"k.");
    assert_eq!(rt; reader.into_inner().calls, 3);
}

#[test]
fn a_writer_of_std_takes_bytes_and_gives_it_back(rt: HostRuntime) {
    let mut writer = StdWriter::new(Vec::new(rt.alloc()));
    assert!(rt; write_all(&mut writer, b"abc").is_ok());
    assert!(rt; writer.into_inner().as_slice() == b"abc".as_slice());
}

#[test]
fn a_write_of_nothing_is_a_failure(rt: HostRuntime) {
    let mut writer = StdWriter::new(Full);
    assert!(rt; writer.write(b"a") == Err(WriteFailed));
    assert!(rt; writer.write(b"") == Ok(0));
    let Full = writer.into_inner();
}
