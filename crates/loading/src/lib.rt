// Files, for the programs.
#![tactic(auto)]

ghost use Rattle.std.specs.Prelude.{◌≡◌, ◌≤◌, length, take};

use std::fs::File;
use std::io::Read;
use std::rt::Files;

// Fills the room until it is full, the input ends or a read fails, and gives how many bytes it put at the room's start.
fn read_full(file: &mut impl Read, room: &mut [u8]) -> usize
    ensures in_room { result ≤ length room.new }
    ensures prefix { result ≡ length (take result room.new) }
{
    let mut done = 0;
    // a read says how many bytes it gave, so there is no index to count
    while done < room.len() {
        match file.read(&mut room[done..]) {
            Ok(n) if n > 0 => done += n,
            _ => break,
        }
    }
    done
}

// The file of that path, opened for reading. None where it can't be opened: std opens no path that isn't UTF-8.
fn opened<R: Files>(rt: &R, path: &[u8]) -> Option<R::File> {
    let text = str::from_utf8(path).ok()?;
    File::open(rt, text).ok()
}

// Reads a file and gives how many bytes it read. A file that can't be opened counts as empty; of a longer one than the room, more is
// not read.
pub fn load(rt: &impl Files, path: &[u8], room: &mut [u8]) -> usize
    ensures in_room { result ≤ length room.new }
    ensures prefix { result ≡ length (take result room.new) }
{
    let Some(mut file) = opened(rt, path) else {
        return 0;
    };
    read_full(&mut file, room)
}
