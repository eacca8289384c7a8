//! Lines of the program that have numbers, made without memory.
ghost use Rattle.std.specs.Prelude.{◌≡◌, ◌+◌, ◌≤◌, ◌++◌, length, decimal};

use arrayvec::ArrayVec;
use itoa::Buffer;

/// How many bytes a line has at most.
pub const LINE_ROOM: usize = 512;

/// The bytes of a line.
pub type Line = ArrayVec<u8, LINE_ROOM>;

/// Appends a text.
pub fn append(line: &mut Line, text: &[u8])
    requires { length line.old.items + length text.now ≤ 512 }
    ensures { line.new.items ≡ line.old.items ++ text.now }
{
    match line.try_extend_from_slice(text) {
        Ok(()) => {}
        Err(_) => unreachable!(),
    }
}

/// Appends a word and a number.
pub fn append_count(line: &mut Line, word: &[u8], count: u64)
    requires { length line.old.items + length word.now + 40 ≤ 512 }
    ensures text { line.new.items ≡ line.old.items ++ word.now ++ decimal count }
    ensures room { length line.new.items ≤ length line.old.items + length word.now + 40 }
{
    append(line, word);
    append(line, Buffer::new().format(count).as_bytes());
}
