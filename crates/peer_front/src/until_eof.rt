//! The end of standard input as the end of the server.

use peer_flags::Options;
use peer_loop::Stop;
use std::alloc::{AllocError, Global};
use std::io::Read;
use std::sync::Arc;
use std::thread;
use std::thread::Threads;

// Reads to the end, and stops the server then, or where a read fails.
fn stop_at_end<R: Read + Drop>(mut reader: R, stop: Arc<Stop, Global>) {
    let mut room = [0u8; 4096];
    for _ in 0..u64::MAX {
        match reader.read(&mut room) {
            Ok(0) | Err(_) => break,
            Ok(_) => {}
        }
    }
    stop.stop();
}

/// What ends the server: under `--until-eof` the end of standard input, which a thread waits for that nobody joins, since
/// the program may end before the input does. The error is for memory and the thread.
pub fn stop_of<R: Read + Send + Drop + 'static, H: AllocGlobal + Input<Reader = R> + Threads>(
    rt: &H,
    options: &Options<'_>,
) -> Result<Arc<Stop, Global>, AllocError> {
    let stop = Arc::new(rt.alloc(), Stop::new())?;
    if options.until_eof {
        let theirs = Arc::try_clone(&stop)?;
        let reader = rt.reader();
        if thread::spawn(rt, move || stop_at_end(reader, theirs)).is_err() {
            return Err(AllocError);
        }
    }
    Ok(stop)
}
