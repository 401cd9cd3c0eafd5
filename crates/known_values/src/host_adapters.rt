// The files and streams of the host.
use host_outside::{HostFiles, HostStream};
use link_outside::{Load, Sink, SinkError, Store, StoreError};
use std::alloc::Global;
use std::io::Write;
use std::test::Fail;
use std::{env, fs, io};

// Whether a load gave this text, whole or not.
fn gives(load: Result<Load, StoreError>, is_whole: bool, want: &[u8]) -> bool {
    match load {
        Ok(Load::Whole(text)) => is_whole && text.bytes() == want,
        Ok(Load::Over(text)) => !is_whole && text.bytes() == want,
        Err(_) => false,
    }
}

// Whether a text that is put is loaded whole.
fn is_kept<S: Store>(alloc: Global, files: &mut S, name: &str, text: &[u8]) -> bool {
    files.put(alloc, name, text).is_ok()
        && gives(files.load(alloc, name, text.len() as u64), true, text)
}

#[test]
fn files_are_put_whole_and_loaded_up_to_a_limit(rt: HostRuntime) -> Result<(), Fail> {
    let alloc = rt.alloc();
    let folder = env::temp_dir(&rt)?;
    let name = format!(in alloc; "{}/linkage-adapter-test.csv", folder.as_path().display())?;
    let mut files = HostFiles::new(alloc, &rt);
    for text in [
        vec![in alloc; b'x'; 200_000]?,
        vec![in alloc; b'a', b'b', b'c']?,
    ] {
        assert!(rt;
            is_kept(alloc, &mut files, &name, &text),
            "{} bytes",
            text.len()
        );
    }
    assert!(rt; gives(files.load(alloc, &name, 2), false, b"abc"));
    assert!(rt; gives(files.load(alloc, &name, 1), false, b"ab"));
    assert!(rt; fs::remove_file(&rt, name.as_str()).is_ok());
    assert!(rt; matches!(files.load(alloc, &name, 3), Err(StoreError::Failed)));
    let put = files.put(alloc, "linkage-no-folder/a.csv", b"x");
    assert!(rt; put == Err(StoreError::Failed));
    Ok(())
}

// A writer that takes so many bytes at most of each piece, and then hands on what it has, or does not.
#[derive(Drop)]
struct Narrow {
    takes: usize,
    flushes: bool,
}

impl Write for Narrow {
    fn write(&mut self, bytes: &[u8]) -> io::Result<usize> {
        Ok(bytes.len().min(self.takes))
    }

    fn flush(&mut self) -> io::Result<()> {
        if self.flushes {
            Ok(())
        } else {
            Err(io::Error::from(io::ErrorKind::BrokenPipe))
        }
    }
}

#[test]
fn a_stream_that_takes_nothing_or_hands_nothing_on_has_failed(rt: HostRuntime) {
    let failed = Err(SinkError::Failed);
    for (takes, flushes, done) in [(1, true, Ok(())), (0, true, failed), (1, false, failed)] {
        let mut stream = HostStream::new(Narrow { takes, flushes });
        let put = stream.put_all(rt.alloc(), b"xy");
        assert!(rt; put == done, "takes {takes}, flushes: {flushes}");
    }
}
