// The trace's writer at the end of its room: a tick at 300 takes three bytes. Each line has the room's bytes after
// the call, all 7 before it.
use crate::print::Told;
use gesture::Call;
use panel::Refusal;
use std::io;

// What the call on a room answered, and the room.
fn after(rt: &impl Print, told: Result<usize, Refusal>, room: &[u8]) -> io::Result<()> {
    print!(rt; " -> {},", Told(told))?;
    for b in room {
        print!(rt; " {b}")?;
    }
    println!(rt; "")
}

fn put_tick(rt: &impl Print, room: &mut [u8]) -> io::Result<()> {
    let told = trace::put_record(room, 0, Call::Tick(300));
    let size = room.len();
    print!(rt; "put_record tick 300, {size} bytes")?;
    after(rt, told, room)
}

// The version behind the end of the room.
fn put_head(rt: &impl Print) -> io::Result<()> {
    let mut room = [7u8; 2];
    let told = trace::put_head(&mut room, 2);
    print!(rt; "put_head at 2, 2 bytes")?;
    after(rt, told, &room)
}

pub(crate) fn rooms(rt: &impl Print) -> io::Result<()> {
    put_tick(rt, &mut [7; 2])?;
    put_tick(rt, &mut [7; 4])?;
    put_head(rt)
}
