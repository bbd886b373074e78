//! Inputs that are no JSON, the deepest ones, and readers and writers that fail.
use crate::command::Command;
use crate::run::run;
use crate::tests::{CLEAN_TAG, TAG, ran_on, report_of};
use openapi_node::Steps;
use openapi_text::RunFault;
use std::io::{self, Read, Write};
use std::test::Fail;

// No proper beginning of a JSON object is JSON.
#[test]
fn beginnings_are_not_json(rt: HostRuntime) -> Result<(), Fail> {
    for end in 0..TAG.len() {
        let ran = ran_on(&rt, Command::Tag, &TAG[..end])?;
        assert_eq!(rt; ran.written.len(), 0);
        let Some((status, _)) = ran.fault else {
            panic!(rt; "read {end} bytes");
        };
        assert_eq!(rt; status, 2);
    }
    Ok(())
}

// Bytes outside the one value, bytes that are no UTF-8, and halves of a surrogate pair.
#[test]
fn other_bytes_are_not_json(rt: HostRuntime) -> Result<(), Fail> {
    let rows: [&[u8]; 6] = [
        b"",
        b"\xff",
        b"{}x",
        b"\xef\xbb\xbf{\"name\":\"t\"}",
        b"{\"name\":\"\\ud800\"}",
        b"{\"name\":\"\\udc00\\ud800\"}",
    ];
    for input in rows {
        let told = report_of(&rt, Command::Tag, input)?;
        assert_eq!(rt; told.as_str(), "2: not JSON");
    }
    let pair = report_of(&rt, Command::Tag, b"{\"name\":\"\\ud83d\\ude00\"}")?;
    assert_eq!(rt; pair.as_str(), "0: {\"name\":\"\u{1f600}\"}\n");
    Ok(())
}

// A tag with that many lists, one in another, under an extension.
fn nested(rt: &HostRuntime, depth: usize) -> Result<Vec<u8>, Fail> {
    let mut bytes = Vec::new(rt.alloc());
    bytes.extend_from_slice(b"{\"name\":\"t\",\"x-a\":")?;
    for _ in 0..depth {
        bytes.push(b'[')?;
    }
    for _ in 0..depth {
        bytes.push(b']')?;
    }
    bytes.push(b'}')?;
    Ok(bytes)
}

// JSON text may nest 127 deep, the tag itself counted.
#[test]
fn depth_is_limited(rt: HostRuntime) -> Result<(), Fail> {
    let deepest = nested(&rt, 126)?;
    let ran = ran_on(&rt, Command::Tag, deepest.as_slice())?;
    assert!(rt; ran.fault.is_none());
    assert_eq!(rt; ran.written.len(), deepest.len() + 1);
    assert_eq!(rt; &ran.written[..deepest.len()], deepest.as_slice());
    Ok(())
}

#[test]
fn deeper_text_is_not_json(rt: HostRuntime) -> Result<(), Fail> {
    let deeper = nested(&rt, 127)?;
    let ran = ran_on(&rt, Command::Tag, deeper.as_slice())?;
    assert_eq!(rt; ran.written.len(), 0);
    let Some((status, _)) = ran.fault else {
        panic!(rt; "read 128 levels");
    };
    assert_eq!(rt; status, 2);
    Ok(())
}

/// Gives or takes at most some bytes a call, and fails at one call.
#[derive(Drop)]
struct Halting<T> {
    inner: T,
    most: usize,
    calls_left: usize,
}

impl<T> Halting<T> {
    fn turn(&mut self) -> io::Result<()> {
        if self.calls_left <= 1 {
            return Err(io::Error::from(io::ErrorKind::Other));
        }
        self.calls_left -= 1;
        Ok(())
    }
}

impl<T: Read> Read for Halting<T> {
    fn read(&mut self, buf: &mut [u8]) -> io::Result<usize> {
        self.turn()?;
        let len = buf.len().min(self.most);
        self.inner.read(&mut buf[..len])
    }
}

impl<T: Write> Write for Halting<T> {
    fn write(&mut self, buf: &[u8]) -> io::Result<usize> {
        self.turn()?;
        let len = buf.len().min(self.most);
        self.inner.write(&buf[..len])
    }

    fn flush(&mut self) -> io::Result<()> {
        Ok(())
    }
}

#[test]
fn failing_readers_write_nothing(rt: HostRuntime) -> Result<(), Fail> {
    for call in 1..=TAG.len() + 1 {
        let mut reader = Halting {
            inner: TAG,
            most: 1,
            calls_left: call,
        };
        let mut written = Vec::new(rt.alloc());
        let mut steps = Steps::new(&rt);
        match run(
            rt.alloc(),
            Command::Tag,
            &mut reader,
            &mut written,
            &mut steps,
        ) {
            Err(RunFault::Read) => assert_eq!(rt; written.len(), 0),
            _ => panic!(rt; "no failed read at call {call}"),
        }
    }
    Ok(())
}

#[test]
fn failing_writers_hold_a_beginning(rt: HostRuntime) -> Result<(), Fail> {
    for call in 1..=CLEAN_TAG.len() {
        let mut reader = TAG;
        let mut writer = Halting {
            inner: Vec::new(rt.alloc()),
            most: 1,
            calls_left: call,
        };
        let mut steps = Steps::new(&rt);
        match run(
            rt.alloc(),
            Command::Tag,
            &mut reader,
            &mut writer,
            &mut steps,
        ) {
            Err(RunFault::Write) => assert_eq!(rt; writer.inner.as_slice(), &CLEAN_TAG[..call - 1]),
            _ => panic!(rt; "no failed write at call {call}"),
        }
    }
    Ok(())
}

#[test]
fn full_writers_fail(rt: HostRuntime) -> Result<(), Fail> {
    let mut reader = TAG;
    let mut full: &mut [u8] = &mut [];
    let mut steps = Steps::new(&rt);
    let Err(fault) = run(rt.alloc(), Command::Tag, &mut reader, &mut full, &mut steps) else {
        panic!(rt; "wrote to no room");
    };
    assert_eq!(rt; fault.status(), 3);
    let text = format!(in rt.alloc(); "{fault}")?;
    assert_eq!(rt; text.as_str(), "write failed");
    Ok(())
}

/// Returns a tag without unknown names whose name has that many letters.
fn long_tag(rt: &HostRuntime, length: usize) -> Result<Vec<u8>, Fail> {
    let mut bytes = Vec::new(rt.alloc());
    bytes.extend_from_slice(b"{\"name\":\"")?;
    for _ in 0..length {
        bytes.push(b'a')?;
    }
    bytes.extend_from_slice(b"\"}")?;
    Ok(bytes)
}

// No size of input or output is too large, whatever the pieces that it comes and goes in.
#[test]
fn long_inputs_come_and_go_in_pieces(rt: HostRuntime) -> Result<(), Fail> {
    let input = long_tag(&rt, 200_000)?;
    let mut reader = Halting {
        inner: input.as_slice(),
        most: 1000,
        calls_left: usize::MAX,
    };
    let mut writer = Halting {
        inner: Vec::new(rt.alloc()),
        most: 777,
        calls_left: usize::MAX,
    };
    let mut steps = Steps::new(&rt);
    let ran = run(
        rt.alloc(),
        Command::Tag,
        &mut reader,
        &mut writer,
        &mut steps,
    );
    assert!(rt; ran.is_ok());
    let mut wanted = input.clone()?;
    wanted.push(b'\n')?;
    assert!(rt; writer.inner.as_slice() == wanted.as_slice());
    Ok(())
}
